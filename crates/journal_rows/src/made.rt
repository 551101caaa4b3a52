//! A journal of three items in memory, and one more that is put behind them.
ghost use Rattle.std.specs.Prelude.{◌≡◌, IfSome};

use cov_disk::MemDisk;
use journal_file::{Entry, OpenFault, Opened, add, begin, is_empty, open};
use std::alloc::Global;

/// The digest of a design text.
pub(crate) const DIGEST: [u8; 32] = [7; 32];

/// The contents of the items.
pub(crate) static CONTENTS: [&[u8]; 4] = [b"ab", b"", b"xyz", b"pq"];

/// A journal as its bytes, with its sums.
#[derive(Drop)]
pub(crate) struct Made {
    pub(crate) bytes: Vec<u8>,
    pub(crate) sums: Vec<u8>,
}

/// A file with these bytes, of which one call fails.
fn disk_of(alloc: Global, bytes: &[u8], failing: u64) -> Option<MemDisk>
    ensures sound { IfSome result (λ m. m.faults ≡ 0) }
    ensures bytes { IfSome result (λ m. m.bytes.items ≡ bytes.now) }
{
    let contents = bytes.to_vec(alloc).ok()?;
    let mut calls = Vec::new(alloc);
    calls.push(failing).ok()?;
    MemDisk::new(alloc, contents, calls).ok()
}

/// Whether an entry is as the item of this number was made.
fn is_item(entry: &Entry, number: usize) -> bool {
    number < CONTENTS.len()
        && entry.caller == 5
        && entry.kind == 2
        && entry.content.as_slice() == CONTENTS[number]
}

/// Whether all entries are as they were made.
pub(crate) fn are_items(entries: &[Entry]) -> bool {
    for number in 0..entries.len() {
        if !is_item(&entries[number], number) {
            return false;
        }
    }
    true
}

/// What these bytes are opened as, beside these sums.
pub(crate) fn opened(alloc: Global, bytes: &[u8], sums: &[u8]) -> Result<Opened, OpenFault> {
    let Some(mut disk) = disk_of(alloc, bytes, u64::MAX) else {
        return Err(OpenFault::Memory);
    };
    open(alloc, &mut disk, &DIGEST, sums)
}

/// Whether a file with these bytes has none.
pub(crate) fn has_none(alloc: Global, bytes: &[u8]) -> Option<bool> {
    let mut disk = disk_of(alloc, bytes, u64::MAX)?;
    is_empty(&mut disk).ok()
}

/// A journal without items.
fn bare(alloc: Global) -> Option<Vec<u8>> {
    let mut disk = disk_of(alloc, &[], u64::MAX)?;
    begin(&mut disk, &DIGEST).ok()?;
    disk.bytes().to_vec(alloc).ok()
}

/// The bytes after an item was put behind the others, where the call of this number failed, its sum, and whether that was
/// answered.
pub(crate) fn put(
    alloc: Global,
    bytes: &[u8],
    content: &[u8],
    failing: u64,
) -> Option<(Vec<u8>, [u8; 32], bool)> {
    let mut disk = disk_of(alloc, bytes, failing)?;
    let Ok(mut opened) = open(alloc, &mut disk, &DIGEST, &[]) else {
        return Some((disk.bytes().to_vec(alloc).ok()?, [0; 32], false));
    };
    let done = content.len() < 100 && add(&mut disk, &mut opened.end, 5, 2, content).is_ok();
    Some((disk.bytes().to_vec(alloc).ok()?, opened.end.sum, done))
}

/// A journal of the first three items.
pub(crate) fn make_journal(alloc: Global) -> Option<Made> {
    let mut bytes = bare(alloc)?;
    let mut sums = Vec::new(alloc);
    for number in 0..3 {
        let (more, sum, _) = put(alloc, bytes.as_slice(), CONTENTS[number], u64::MAX)?;
        sums.extend_from_slice(&sum).ok()?;
        bytes = more;
    }
    Some(Made { bytes, sums })
}
