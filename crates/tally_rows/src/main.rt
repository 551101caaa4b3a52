//! Street: worked rows.
//!
//! Worked rows of `percent`, `tally`, `rank_report`, `upload_stage` and `record_codec`: each line of standard input is a call with its
//! arguments, bytes as hexadecimal digits, and is written again with its answer behind ` =`. The file `stdout` has the answers,
//! worked out by hand.
#![tactic(auto)]

mod counts;
mod making;
mod ranking;
mod records;
mod stages;
mod words;

use std::alloc::Global;
use std::io;
use std::io::{Input, Print};
use std::process::ExitCode;
use std::thread::Threads;
use words::{show, split};

/// Writes the answer of a call of uploads and records.
fn answer_bytes<R: Print>(rt: &R, alloc: Global, call: &str, rest: &str) {
    match call {
        "stage" => stages::stage(rt, alloc, rest),
        "record" => records::record(rt, alloc, rest),
        "again" => records::again(rt, alloc, rest),
        "build" => making::build(rt, alloc, rest),
        "fill" => making::fill(rt, alloc, rest),
        "memory" => making::memory(rt),
        _ => show(rt, " no such call"),
    }
}

/// Writes the answer of a call.
fn answer<R: Threads + Sync + Print>(rt: &R, alloc: Global, call: &str, rest: &str) {
    match call {
        "parts" => counts::parts(rt, alloc, rest),
        "mean" => counts::mean(rt, alloc, rest),
        "steps" => counts::steps(rt, alloc, rest),
        "tally" => counts::tally(rt, alloc, rest),
        "added" => counts::added(rt, alloc),
        "rank" => ranking::ranking(rt, alloc, rest),
        "lines" => ranking::lines(rt, alloc, rest),
        _ => answer_bytes(rt, alloc, call, rest),
    }
}

/// Writes a row with its answer.
fn row<R: Threads + Sync + Print>(rt: &R, alloc: Global, line: &str) -> io::Result<()> {
    print!(rt; "{line} =")?;
    let (call, rest) = split(line, ' ');
    answer(rt, alloc, call, rest);
    println!(rt; "")
}

/// Writes all rows.
fn rows<R: Threads + Sync + Input + Print>(rt: &R, alloc: Global) -> io::Result<()> {
    for line in rt.lines(alloc) {
        row(rt, alloc, line?.as_str())?;
    }
    Ok(())
}

fn main(rt: HostRuntime) -> ExitCode {
    ExitCode::from(if rows(&rt, rt.alloc()).is_ok() { 0 } else { 1 })
}
