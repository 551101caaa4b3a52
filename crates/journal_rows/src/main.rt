//! Street: worked rows.
//!
//! Worked rows of `journal_file`: each line of standard input is a way to harm a journal of three items, and is written
//! again with how many of the harmed ones are answered how. The file `stdout` has the answers, counted by hand.
#![tactic(auto)]

mod answers;
mod harms;
mod made;

use std::alloc::Global;
use std::io;
use std::io::{Input, Print};
use std::process::ExitCode;

/// Writes a row with its answer.
fn row<R: Print>(rt: &R, alloc: Global, line: &str) -> io::Result<()> {
    print!(rt; "{line} =")?;
    match line {
        "cut" => harms::cut(rt, alloc),
        "empty" => harms::empty(rt, alloc),
        "turned" => harms::turned(rt, alloc),
        "sums cut" => harms::sums_cut(rt, alloc),
        "sums turned" => harms::sums_turned(rt, alloc),
        "torn" => harms::torn(rt, alloc),
        "gate" => harms::gate(rt, alloc),
        "failing" => harms::failing(rt, alloc),
        _ => {}
    }
    println!(rt; "")
}

/// Writes all rows.
fn rows<R: Input + Print>(rt: &R, alloc: Global) -> io::Result<()> {
    for line in rt.lines(alloc) {
        row(rt, alloc, line?.as_str())?;
    }
    Ok(())
}

fn main(rt: HostRuntime) -> ExitCode {
    ExitCode::from(if rows(&rt, rt.alloc()).is_ok() { 0 } else { 1 })
}
