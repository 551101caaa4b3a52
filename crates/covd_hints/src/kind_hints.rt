//! Hints on files that are of another kind than is wanted.

use std::alloc::Global;
use text_place::FileKind;

/// What a command wanted a file to be.
#[derive(Clone, Copy)]
pub(crate) enum Wanted {
    Design,
    Waivers,
    Record,
    Dump,
}

/// What a file is, and the command that makes what is wanted of it: its words before the file's name and behind it.
#[derive(Clone, Copy)]
struct Advice {
    what: &'static str,
    before: &'static str,
    behind: &'static str,
}

const GZIP: Advice = Advice {
    what: "compressed by gzip",
    before: "gunzip",
    behind: "unpacks it",
};

const FST_DUMP: Advice = Advice {
    what: "an FST dump",
    before: "fst2vcd",
    behind: "> dump.vcd makes a VCD dump of it",
};

const PORT_DUMP: Advice = Advice {
    what: "an extended dump of ports (EVCD)",
    before: "$dumpvars writes a dump of four values, and $dumpports one as",
    behind: "is",
};

const PROGRAM: Advice = Advice {
    what: "a program or a library (ELF)",
    before: "no text, record or dump stands in",
    behind: "by itself",
};

const RECORD: Advice = Advice {
    what: "a test record",
    before: "covd count DESIGN",
    behind: "counts what it hits",
};

const DUMP: Advice = Advice {
    what: "a value change dump (VCD)",
    before: "covd record DESIGN",
    behind: "SCOPE ID > test.rec makes a record of it",
};

const SOURCE: Advice = Advice {
    what: "a text of SystemVerilog",
    before: "covd check",
    behind: "looks whether it is a design, which stands before records and dumps",
};

/// The advice on a file of a kind; none where it may be what is wanted, or nothing is known of it.
fn advice_on(kind: FileKind, wanted: Wanted) -> Option<Advice> {
    match (kind, wanted) {
        (FileKind::Gzip, _) => Some(GZIP),
        (FileKind::FstDump, _) => Some(FST_DUMP),
        (FileKind::Program, _) => Some(PROGRAM),
        (FileKind::PortDump, _) => Some(PORT_DUMP),
        (FileKind::Record, Wanted::Design | Wanted::Waivers | Wanted::Dump) => Some(RECORD),
        (FileKind::Dump, Wanted::Design | Wanted::Waivers | Wanted::Record) => Some(DUMP),
        (FileKind::Source, Wanted::Waivers | Wanted::Record | Wanted::Dump) => Some(SOURCE),
        _ => None,
    }
}

/// The hint on a file of a kind, where another was wanted.
pub(crate) fn kind_hint(
    alloc: Global,
    name: &str,
    kind: FileKind,
    wanted: Wanted,
) -> Option<String> {
    let advice = advice_on(kind, wanted)?;
    format!(in alloc;
        "{name} is {}: {} {name} {}\n",
        advice.what, advice.before, advice.behind
    )
    .ok()
}
