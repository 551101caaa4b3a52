//! Commands whose text is the record from then on.
use crate::digits::{show_bytes, show_digest};
use crate::files::{Files, all_files};
use crate::words::{copy_of, show_status, words_of};
use cov_base::{MemLink, SureShelf};
use covd_core::{Status, run};
use std::alloc::Global;
use std::io::Print;
use std::thread::Threads;

/// The most bytes that a write takes.
const PIECE: usize = 1_000;

/// A link with nothing to read.
fn empty_link(alloc: Global) -> MemLink {
    MemLink::new(
        alloc,
        Vec::new(alloc),
        PIECE,
        Vec::new(alloc),
        Vec::new(alloc),
    )
}

/// Runs the words over the files, and keeps what they write as the record.
fn status_kept<R: Threads + Sync>(
    rt: &R,
    alloc: Global,
    files: &mut Files,
    words: &[String],
) -> Status {
    let mut shelf = SureShelf::new(all_files(alloc, files));
    let mut link = empty_link(alloc);
    let status = run(rt, alloc, words, &mut shelf, &mut link);
    files.record = copy_of(alloc, link.contents());
    status
}

/// Does the row of a command whose text is kept.
fn keep<R: Threads + Sync + Print>(rt: &R, alloc: Global, files: &mut Files, row: &str) -> Status {
    let _ = println!(rt; "$ {row} > r");
    status_kept(rt, alloc, files, &words_of(alloc, row))
}

/// Runs a command, keeps what it writes as the record, and shows that in hexadecimal.
pub fn keep_bytes<R: Threads + Sync + Print>(rt: &R, alloc: Global, files: &mut Files, row: &str) {
    let status = keep(rt, alloc, files, row);
    show_bytes(rt, alloc, &files.record);
    show_status(rt, status);
}

/// Runs a command, keeps what it writes as the record, and shows its length and its SHA-256.
pub fn keep_digest<R: Threads + Sync + Print>(rt: &R, alloc: Global, files: &mut Files, row: &str) {
    let status = keep(rt, alloc, files, row);
    show_digest(rt, alloc, &files.record);
    show_status(rt, status);
}
