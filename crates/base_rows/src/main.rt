//! Street: worked rows.
//!
//! Worked rows of `cov_base`, `markup`, `cov_serve`, `text_place` and `cov_net`: each line of standard input is a call with its arguments,
//! and is written again with its answer behind ` =`. The file `stdout` has the answers, written by hand.
#![tactic(auto)]

mod escaping;
mod hints;
mod links;
mod outside;
mod said;
mod sets;
mod shelves;
mod streams;
mod words;

use std::alloc::Global;
use std::io;
use std::io::{Input, Print};
use std::process::ExitCode;
use std::rt::Files;
use words::split;

/// Writes the answer of a call of numbers and sets.
fn answer_sets<R: Print>(rt: &R, alloc: Global, call: &str, rest: &str) {
    match call {
        "int" => sets::ints(rt, rest),
        "type" => sets::ends(rt, rest),
        "size" => sets::size(rt, rest),
        "set" => sets::set(rt, alloc, rest),
        "in" => sets::contains(rt, alloc, rest),
        "nth" => sets::nth(rt, alloc, rest),
        _ => sets::both(rt, alloc, call, rest),
    }
}

/// Writes the answer to a row.
fn answer<R: Print + Files>(rt: &R, alloc: Global, call: &str, rest: &str) {
    match call {
        "source" => streams::source(rt, alloc, rest),
        "sink" => streams::sink(rt, alloc, rest),
        "shelf" => shelves::shelf(rt, alloc, rest),
        "link" => links::link(rt, alloc, rest),
        "pair" => links::pair(rt, alloc, rest),
        "door" => links::door(rt, alloc, rest),
        "serve" => said::serve(rt, alloc, rest),
        "early" => said::early(rt, alloc, rest),
        "hint" => hints::hint(rt, alloc, rest),
        "escape" => escaping::escape(rt, alloc, rest),
        "script" => outside::script(rt, rest),
        "file" => outside::file(rt, alloc, rest),
        _ => answer_sets(rt, alloc, call, rest),
    }
}

/// Writes a row with its answer.
fn row<R: Print + Files>(rt: &R, alloc: Global, line: &str) -> io::Result<()> {
    print!(rt; "{line} =")?;
    let (call, rest) = split(line, ' ');
    answer(rt, alloc, call, rest);
    println!(rt; "")
}

/// Writes all rows.
fn rows<R: Input + Print + Files>(rt: &R, alloc: Global) -> io::Result<()> {
    for line in rt.lines(alloc) {
        row(rt, alloc, line?.as_str())?;
    }
    Ok(())
}

fn main(rt: HostRuntime) -> ExitCode {
    ExitCode::from(if rows(&rt, rt.alloc()).is_ok() { 0 } else { 1 })
}
