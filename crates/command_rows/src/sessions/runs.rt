//! The rows of sessions over streams.
use crate::sessions::Table;
use crate::sessions::replies::{show_ended, show_last, show_replies};
use crate::words::{
    copy_of, number_of, numbers_of, piece_of, say, show_number, show_status, split, take, text_of,
    words_of,
};
use cov_base::{MemLink, OpenGate, SureLink, SureShelf};
use cov_workers::{Alone, Store, session};
use covd_core::{Status, compile, run};
use design_data::Design;
use std::alloc::Global;
use std::io::Print;
use std::sync::Arc;
use std::thread::Threads;

/// The file of the design.
fn shelf_of(alloc: Global, design: &[u8]) -> SureShelf {
    let mut files = Vec::new(alloc);
    let _ = files.push((text_of(alloc, "d"), copy_of(alloc, design)));
    SureShelf::new(files)
}

/// PIECE READS WRITES: a link with these bytes to read.
fn link_of(alloc: Global, input: Vec<u8>, plan: &str) -> MemLink {
    let (piece, fails) = split(plan);
    let (reads, writes) = split(fails);
    let (reads, writes) = (numbers_of(alloc, reads), numbers_of(alloc, writes));
    MemLink::new(alloc, input, piece_of(piece), reads, writes)
}

/// Runs `session d`.
fn status_of<R: Threads + Sync>(
    rt: &R,
    alloc: Global,
    design: &[u8],
    link: &mut MemLink,
) -> Status {
    let words = words_of(alloc, "session d");
    run(rt, alloc, &words, &mut shelf_of(alloc, design), link)
}

/// PIECE READS WRITES: runs a session over what is there.
pub(crate) fn run_row<R: Threads + Sync + Print>(
    rt: &R,
    alloc: Global,
    table: &mut Table,
    plan: &str,
) {
    let mut link = link_of(alloc, take(alloc, &mut table.input), plan);
    let status = status_of(rt, alloc, &table.design, &mut link);
    show_replies(rt, alloc, link.contents());
    show_status(rt, status);
}

/// COUNT PIECE: runs a session over what is there, and shows so many of the last replies.
pub(crate) fn last_row<R: Threads + Sync + Print>(
    rt: &R,
    alloc: Global,
    table: &mut Table,
    row: &str,
) {
    let (shown, plan) = split(row);
    let mut link = link_of(alloc, take(alloc, &mut table.input), plan);
    let status = status_of(rt, alloc, &table.design, &mut link);
    show_last(rt, alloc, link.contents(), number_of(shown));
    show_status(rt, status);
}

/// The design, where the text declares one.
pub(crate) fn design_of(alloc: Global, text: &[u8]) -> Option<Arc<Design>> {
    if text.len() > 1_048_576 {
        return None;
    }
    match compile(alloc, text) {
        Ok(design) => Arc::new(alloc, design).ok(),
        Err(_) => None,
    }
}

/// Runs a session that takes at most so many bytes, and shows how it went.
fn show_limited<R: Threads + Sync + Print>(
    rt: &R,
    alloc: Global,
    design: &Arc<Design>,
    link: &mut SureLink,
    most: u64,
) {
    let Ok(opening) = design.clone() else {
        return;
    };
    let Ok(store) = Store::new(alloc, opening) else {
        return;
    };
    let mut port = Alone { store };
    let ended = session(rt, alloc, design, &mut port, link, &OpenGate, most);
    show_ended(rt, alloc, link.contents(), ended);
}

/// MOST PIECE: runs a session that takes at most so many bytes of what is there.
pub(crate) fn most_row<R: Threads + Sync + Print>(
    rt: &R,
    alloc: Global,
    table: &mut Table,
    row: &str,
) {
    let (most, piece) = split(row);
    let mut link = SureLink::new(alloc, take(alloc, &mut table.input), piece_of(piece));
    match design_of(alloc, &table.design) {
        Some(design) => show_limited(rt, alloc, &design, &mut link, number_of(most)),
        None => say(rt, "no design"),
    }
}
