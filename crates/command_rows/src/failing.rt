//! Commands of which some calls fail.
use crate::files::{Files, all_files};
use crate::words::{numbers_of, say, show_status, split, words_of};
use cov_base::{MemLink, MemShelf};
use covd_core::{Status, run};
use std::alloc::Global;
use std::io::Print;
use std::thread::Threads;

/// The most bytes that a write takes.
const PIECE: usize = 3;

/// A link with nothing to read, of which these writes fail.
fn link_of(alloc: Global, writes: &str) -> MemLink {
    let writes = numbers_of(alloc, writes);
    MemLink::new(alloc, Vec::new(alloc), PIECE, Vec::new(alloc), writes)
}

/// Runs the words where these reads of files fail.
fn status_of<R: Threads + Sync>(
    rt: &R,
    alloc: Global,
    files: &Files,
    reads: &str,
    words: &[String],
    link: &mut MemLink,
) -> Status {
    let mut shelf = MemShelf::new(all_files(alloc, files), numbers_of(alloc, reads));
    run(rt, alloc, words, &mut shelf, link)
}

/// READS WRITES WORDS: writes the answer of a command of which these calls fail: what it wrote, in a line of its own, and its
/// status.
pub fn failing_command<R: Threads + Sync + Print>(rt: &R, alloc: Global, files: &Files, row: &str) {
    let (reads, rest) = split(row);
    let (writes, words) = split(rest);
    let mut link = link_of(alloc, writes);
    let status = status_of(rt, alloc, files, reads, &words_of(alloc, words), &mut link);
    say(rt, str::from_utf8(link.contents()).unwrap_or("no text"));
    show_status(rt, status);
}
