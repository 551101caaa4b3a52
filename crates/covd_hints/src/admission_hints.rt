//! Hints on records that aren't admitted.

use crate::file_hints::read_again;
use cov_ground::limits::{LONGEST_RECORD, MOST_TESTS};
use cov_tree::Name;
use record_codec::decode;
use std::alloc::{AllocError, Global};
use std::rt::Files;

/// A test that was read again, and the file of its record.
#[derive(Drop)]
struct Seen<'n> {
    id: Name,
    file: &'n str,
}

/// The name of the test in a file.
fn id_of<R: Files + AllocGlobal>(rt: &R, file: &str) -> Option<Name> {
    let bytes = read_again(rt, file, LONGEST_RECORD)?;
    let rec = decode(rt.alloc(), &bytes).ok()?;
    rec.id.share().ok()
}

/// The file of an earlier test of this name.
fn file_of<'n>(seen: &[Seen<'n>], id: &Name) -> Option<&'n str> {
    for earlier in seen {
        if earlier.id == *id {
            return Some(earlier.file);
        }
    }
    None
}

/// Whether two files have different bytes; no, where one of them can't be read again.
fn differ<R: Files + AllocGlobal>(rt: &R, file: &str, other: &str) -> bool {
    match (
        read_again(rt, file, LONGEST_RECORD),
        read_again(rt, other, LONGEST_RECORD),
    ) {
        (Some(bytes), Some(others)) => *bytes != *others,
        _ => false,
    }
}

/// That two records have one name.
fn taken_hint(alloc: Global, file: &str, earlier: &str, id: &Name) -> Result<String, AllocError> {
    let id = String::from_utf8_lossy(alloc, id.as_slice())?;
    format!(in alloc;
        "{file} and {earlier} both are records of the test {id}, and not the same: each test wants an ID of its own\n"
    )
}

/// That a store has room for no further test.
fn full_hint(alloc: Global, file: &str) -> Result<String, AllocError> {
    format!(in alloc; "{file} is of one test too many: a store has room for {MOST_TESTS} tests\n")
}

/// What the causes may be.
fn any_hint(alloc: Global) -> Option<String> {
    format!(in alloc;
        "a test's ID stands for one record, and a store has limits: {MOST_TESTS} tests and others (see docs/FORMATS.md)\n"
    ).ok()
}

/// The hint on a record whose test is one of those before it, or one too many; none where it is admitted.
fn judge<R: Files + AllocGlobal>(
    rt: &R,
    seen: &[Seen<'_>],
    file: &str,
    id: &Name,
) -> Option<String> {
    match file_of(seen, id) {
        Some(earlier) if differ(rt, file, earlier) => {
            taken_hint(rt.alloc(), file, earlier, id).ok()
        }
        Some(_) => None,
        None if seen.len() as u64 >= MOST_TESTS => full_hint(rt.alloc(), file).ok(),
        None => None,
    }
}

/// The hint on the records of these files, of which one isn't admitted.
pub(crate) fn on_admission<R: Files + AllocGlobal>(rt: &R, files: &[String]) -> Option<String> {
    let mut seen = Vec::new(rt.alloc());
    for file in files {
        let Some(id) = id_of(rt, file.as_str()) else {
            return any_hint(rt.alloc());
        };
        let hint = judge(rt, &seen, file.as_str(), &id);
        if hint.is_some() {
            return hint;
        }
        let file = file.as_str();
        if seen.push(Seen { id, file }).is_err() {
            return None;
        }
    }
    any_hint(rt.alloc())
}

/// The hint on made tests, of which one is too large.
pub(crate) fn on_making(alloc: Global) -> Option<String> {
    format!(in alloc;
        "a made test has at most 1048576 events and 8388608 bytes: fewer EVENTS (see docs/FORMATS.md)\n"
    ).ok()
}
