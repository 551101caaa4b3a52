//! Rows of sessions. A row `design TEXT` makes the file `d`. A row `frame HEX` adds a frame with this body to what the session
//! is to read, and a row `bytes HEX` adds bytes as they are. A row `uploads COUNT BEFORE AFTER` adds uploads of records with
//! the ids t1, t2 and so on, which have these bytes before and after the id. A row `zeros AT COUNT` adds a piece of so many
//! zeros at this place of an upload. A row `repeat COUNT` makes all that is there stand so many times. A row `run PIECE READS
//! WRITES` runs `session d` over what is there, with at most PIECE bytes a call; READS and WRITES are the numbers of the calls
//! that fail, counted from 0 and separated by commas, or `-`. A row `last COUNT PIECE` does the same with no failing call. A
//! row `most MOST PIECE` runs a session that takes at most MOST bytes. Behind a run follow the body of each reply, of `last`
//! their number and so many of the last, then the bytes that are no whole reply, and the status or how the session ended.
//!
//! Callers of one store behind its lock: a row `before` says that what is there is asked before the second seat is split
//! off, and isn't shown; a row `first` that what is there is asked by the first caller. A row `meet` serves the first caller
//! and then, once both seats have met, the second, who asks what is there now. A row `rounds COUNT` serves so many
//! connections of a door that has one, which asks what is there. A row `hold PLACE` serves both callers in two threads: the
//! first is held at this place of its gate until the second, who comes once the first stands there, has been served. Behind
//! what both were answered stands whether it was so.

mod frames;
mod holding;
mod replies;
mod runs;
mod seats;

use crate::words::{bytes_of, copy_of, split, take};
use frames::{add_frame, add_uploads, add_zeros, repeat};
use holding::hold_row;
use runs::{last_row, most_row, run_row};
use seats::{meet_row, rounds_row};
use std::alloc::Global;
use std::io::Print;
use std::sync::Wait;
use std::thread::Threads;

/// The file of the design, and the bytes to read.
#[derive(Drop)]
pub struct Table {
    design: Vec<u8>,
    before: Vec<u8>,
    first: Vec<u8>,
    input: Vec<u8>,
}

/// Takes a row of sessions, whose replies are written.
fn session_row<R: Threads + Wait + Sync + Print>(
    rt: &R,
    alloc: Global,
    table: &mut Table,
    call: &str,
    rest: &str,
) {
    match call {
        "run" => run_row(rt, alloc, table, rest),
        "last" => last_row(rt, alloc, table, rest),
        "most" => most_row(rt, alloc, table, rest),
        "meet" => meet_row(rt, alloc, table),
        "hold" => hold_row(rt, alloc, table, rest),
        "rounds" => rounds_row(rt, alloc, table, rest),
        _ => {}
    }
}

/// Adds bytes as they are.
fn add_bytes(alloc: Global, input: &mut Vec<u8>, digits: &str) {
    let _ = input.append(&mut bytes_of(alloc, digits));
}

/// Adds to what is there: whether the row is one of those that do.
fn adds(alloc: Global, input: &mut Vec<u8>, call: &str, rest: &str) -> bool {
    match call {
        "frame" => add_frame(input, &[], &bytes_of(alloc, rest)),
        "bytes" => add_bytes(alloc, input, rest),
        "uploads" => add_uploads(alloc, input, rest),
        "zeros" => add_zeros(alloc, input, rest),
        "repeat" => repeat(alloc, input, rest),
        _ => return false,
    }
    true
}

/// Takes a row of a file or of bytes: whether it is one.
fn byte_row(alloc: Global, table: &mut Table, call: &str, rest: &str) -> bool {
    match call {
        "design" => table.design = copy_of(alloc, rest.as_bytes()),
        "before" => table.before = take(alloc, &mut table.input),
        "first" => table.first = take(alloc, &mut table.input),
        _ => return adds(alloc, &mut table.input, call, rest),
    }
    true
}

/// Takes a row of sessions: a file, bytes, or a session.
pub fn session<R: Threads + Wait + Sync + Print>(
    rt: &R,
    alloc: Global,
    table: &mut Table,
    line: &str,
) {
    let _ = println!(rt; "{line}");
    let (call, rest) = split(line);
    if !byte_row(alloc, table, call, rest) {
        session_row(rt, alloc, table, call, rest);
    }
}

impl Table {
    /// A table of nothing.
    pub fn new(alloc: Global) -> Table {
        Table {
            design: Vec::new(alloc),
            before: Vec::new(alloc),
            first: Vec::new(alloc),
            input: Vec::new(alloc),
        }
    }
}
