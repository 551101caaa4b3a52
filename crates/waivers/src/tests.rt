//! Waivers as texts.
use crate::{
    FaultKind, WaiverFault, append_refusal, append_waiver, append_waivers, matches, read_waivers,
    waived_among,
};
use cov_tree::Name;
use std::alloc::Global;
use std::test::*;

/// A line for each waiver, as it is printed where two nodes match; or the line of the fault.
fn shown(alloc: Global, text: &[u8]) -> Result<Vec<u8>, Fail> {
    let mut out = Vec::new(alloc);
    match read_waivers(alloc, text) {
        Ok(waivers) => {
            for waiver in &waivers {
                append_waiver(&mut out, 2, waiver).map_err(|_| "memory")?;
            }
        }
        Err(WaiverFault::Bad { kind, at }) => {
            append_refusal(&mut out, kind, at).map_err(|_| "memory")?;
        }
        Err(WaiverFault::Memory) => {}
    }
    Ok(out)
}

/// Texts, and what is shown of each.
static TEXTS: [(&[u8], &[u8]); 30] = [
    (b"", b""),
    (b"\n \t\r\n# waive\r\n\t#", b""),
    (b"waive a/b \"no\"", b"waived 2 a/b \"no\"\n"),
    (
        b" waive\ta/** \"not built\" \r\nwaive *b \"x\" by me\nwaive c \"y\" on 2024-02-29\r\n",
        b"waived 2 a/** \"not built\"\nwaived 2 *b \"x\" by me\nwaived 2 c \"y\" on 2024-02-29\n",
    ),
    (
        b"waive a \"b c\" by d on 2000-02-29 ",
        b"waived 2 a \"b c\" by d on 2000-02-29\n",
    ),
    (b"waiver a \"b\"", b"waivers refused BadLine at 0\n"),
    (b"#\n  a", b"waivers refused BadLine at 4\n"),
    (b"waive", b"waivers refused BadPattern at 5\n"),
    (b"waive \r\n", b"waivers refused BadPattern at 6\n"),
    (b"waive a\x80 \"b\"", b"waivers refused BadPattern at 6\n"),
    (b"waive ** \"b\"", b"waivers refused MatchesRoot at 6\n"),
    (b"waive * \"b\"", b"waivers refused MatchesRoot at 6\n"),
    (b"waive a", b"waivers refused BadReason at 7\n"),
    (b"waive a b", b"waivers refused BadReason at 8\n"),
    (b"waive a \"\"", b"waivers refused BadReason at 8\n"),
    (b"waive a \"b", b"waivers refused BadReason at 8\n"),
    (b"waive a \"b\tc\"", b"waivers refused BadReason at 8\n"),
    (b"waive a \"b\"by c", b"waivers refused Extra at 11\n"),
    (b"waive a \"b\" by", b"waivers refused BadName at 14\n"),
    (b"waive a \"b\" by \x7F", b"waivers refused BadName at 15\n"),
    (b"waive a \"b\" on", b"waivers refused BadDate at 14\n"),
    (
        b"waive a \"b\" on 2023-02-29",
        b"waivers refused BadDate at 15\n",
    ),
    (
        b"waive a \"b\" on 1900-02-29",
        b"waivers refused BadDate at 15\n",
    ),
    (
        b"waive a \"b\" on 2024-13-01",
        b"waivers refused BadDate at 15\n",
    ),
    (
        b"waive a \"b\" on 2024-04-31",
        b"waivers refused BadDate at 15\n",
    ),
    (
        b"waive a \"b\" on 2024-00-01",
        b"waivers refused BadDate at 15\n",
    ),
    (
        b"waive a \"b\" on 2024-1-01x",
        b"waivers refused BadDate at 15\n",
    ),
    (
        b"waive a \"b\" on 2024-12-31 by c",
        b"waivers refused Extra at 26\n",
    ),
    (b"waive a \"b\" c", b"waivers refused Extra at 12\n"),
    (
        b"waive a \"b\"\r\nwaive b",
        b"waivers refused BadReason at 20\n",
    ),
];

#[test]
fn reads_texts(rt: HostRuntime) -> Result<(), Fail> {
    let alloc = rt.alloc();
    for (text, want) in &TEXTS {
        assert_eq!(rt; shown(alloc, text)?.as_slice(), *want);
    }
    Ok(())
}

/// The text of runs: so many times the same byte, one run behind the other.
fn filled(alloc: Global, parts: &[(usize, u8)]) -> Result<Vec<u8>, Fail> {
    let mut text = Vec::new(alloc);
    for (size, byte) in parts {
        text.resize(text.len().saturating_add(*size), *byte)?;
    }
    Ok(text)
}

/// Runs of one byte each, and what is shown of their text.
static RUNS: [(&[(usize, u8)], &[u8]); 5] = [
    (&[(4096, b'#'), (1, b'\r'), (1, b'\n')], b""),
    (
        &[(4096, b'#'), (1, b'\r'), (1, b'\n'), (4097, b' ')],
        b"waivers refused LineTooLong at 8194\n",
    ),
    (&[(4097, b'#')], b"waivers refused LineTooLong at 4096\n"),
    (&[(1_048_576, b'\n')], b""),
    (
        &[(1_048_577, b'\n')],
        b"waivers refused TextTooLong at 1048576\n",
    ),
];

#[test]
fn tells_long_lines(rt: HostRuntime) -> Result<(), Fail> {
    let alloc = rt.alloc();
    for (parts, want) in &RUNS {
        let text = filled(alloc, parts)?;
        assert_eq!(rt; shown(alloc, text.as_slice())?.as_slice(), *want);
    }
    Ok(())
}

/// How many waivers are read of a text of so many; at the fault's place where there are too many.
fn counted(alloc: Global, waivers: usize) -> Result<usize, Fail> {
    let mut text = Vec::new(alloc);
    for _ in 0..waivers {
        text.extend_from_slice(b"waive a \"b\"\n")?;
    }
    Ok(match read_waivers(alloc, text.as_slice()) {
        Ok(read) => read.len(),
        Err(
            WaiverFault::Bad {
                kind: FaultKind::TooMany,
                at,
            },
        ) => at as usize,
        Err(_) => 0,
    })
}

#[test]
fn counts_waivers(rt: HostRuntime) -> Result<(), Fail> {
    let alloc = rt.alloc();
    assert_eq!(rt; counted(alloc, 65_536)?, 65_536);
    assert_eq!(rt; counted(alloc, 65_537)?, 786_432);
    Ok(())
}

/// Patterns, paths, and whether they match.
static MATCHES: [(&[u8], &[u8], bool); 22] = [
    (b"", b"", true),
    (b"", b"a", false),
    (b"*", b"", true),
    (b"a/b", b"a/b", true),
    (b"a/b", b"a/bc", false),
    (b"a/b", b"a", false),
    (b"*", b"abc", true),
    (b"*", b"a/b", false),
    (b"**", b"a/b/c", true),
    (b"***", b"a/b", true),
    (b"a/*/c", b"a/bb/c", true),
    (b"a/*/c", b"a//c", true),
    (b"a/*/c", b"a/b/b/c", false),
    (b"a/**/c", b"a/b/b/c", true),
    (b"a/**/c", b"a/c", false),
    (b"**b*", b"a/bb/bc", true),
    (b"**b*", b"a/b/c", false),
    (b"*a*b*", b"xaybz", true),
    (b"*a*b*", b"xbyaz", false),
    (b"a?[0]", b"a?[0]", true),
    (b"a?", b"ab", false),
    (b"**aab", b"aaaab", true),
];

#[test]
fn matches_paths(rt: HostRuntime) -> Result<(), Fail> {
    let alloc = rt.alloc();
    for (pattern, path, want) in &MATCHES {
        assert_eq!(rt; matches(alloc, pattern, path).map_err(|_| "memory")?, *want);
    }
    Ok(())
}

/// Paths of a design's nodes, in order.
static PATHS: [&[u8]; 6] = [b"", b"g", b"g/i", b"g/i/p", b"g/i/p/b", b"g/j"];

fn names(alloc: Global) -> Result<Vec<Name>, Fail> {
    let mut names = Vec::new(alloc);
    for path in &PATHS {
        names.push(Name::of(alloc, path).map_err(|_| "memory")?)?;
    }
    Ok(names)
}

/// The places of the paths that a pattern matches.
fn found(alloc: Global, pattern: &[u8]) -> Result<Vec<u32>, Fail> {
    let paths = names(alloc)?;
    if paths.len() > 6 {
        return Ok(Vec::new(alloc));
    }
    Ok(waived_among(alloc, paths.as_slice(), pattern).map_err(|_| "memory")?)
}

/// Patterns, and the places that they match.
static FOUND: [(&[u8], &[u32]); 6] = [
    (b"g", &[1]),
    (b"g/*", &[2, 5]),
    (b"g/**", &[2, 3, 4, 5]),
    (b"**/p", &[3]),
    (b"*", &[0, 1]),
    (b"h", &[]),
];

#[test]
fn finds_places(rt: HostRuntime) -> Result<(), Fail> {
    let alloc = rt.alloc();
    for (pattern, want) in &FOUND {
        assert_eq!(rt; found(alloc, pattern)?.as_slice(), *want);
    }
    Ok(())
}

/// How many nodes, and the line of a waiver that so many match.
static LINES: [(u64, &[u8]); 3] = [
    (0, b"stale a/*\n"),
    (1, b"waived 1 a/* \"b c\" by d on 2024-02-29\n"),
    (
        4_000_000_000,
        b"waived 4000000000 a/* \"b c\" by d on 2024-02-29\n",
    ),
];

/// The line of one waiver.
fn line(alloc: Global, nodes: u64) -> Result<Vec<u8>, Fail> {
    let mut out = Vec::new(alloc);
    if let Ok(waivers) = read_waivers(alloc, b"waive a/* \"b c\" by d on 2024-02-29") {
        for waiver in &waivers {
            append_waiver(&mut out, nodes, waiver).map_err(|_| "memory")?;
        }
    }
    Ok(out)
}

#[test]
fn prints_lines(rt: HostRuntime) -> Result<(), Fail> {
    let alloc = rt.alloc();
    for (nodes, want) in &LINES {
        assert_eq!(rt; line(alloc, *nodes)?.as_slice(), *want);
    }
    Ok(())
}

/// The lines of a text's waivers.
fn listed(alloc: Global, text: &[u8]) -> Result<Vec<u8>, Fail> {
    let mut out = Vec::new(alloc);
    let paths = names(alloc)?;
    if paths.len() > 6 {
        return Ok(out);
    }
    if let Ok(waivers) = read_waivers(alloc, text) {
        append_waivers(alloc, &mut out, paths.as_slice(), waivers.as_slice()).map_err(
            |_| "memory",
        )?;
    }
    Ok(out)
}

#[test]
fn lists_waivers(rt: HostRuntime) -> Result<(), Fail> {
    let alloc = rt.alloc();
    assert_eq!(rt;
        listed(
            alloc,
            b"# all\nwaive h \"a\" by b\nwaive g/* \"c d\" on 2024-02-29\n"
        )?
        .as_slice(),
        b"stale h\nwaived 2 g/* \"c d\" on 2024-02-29\n".as_slice()
    );
    Ok(())
}
