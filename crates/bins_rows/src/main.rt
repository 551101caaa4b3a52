//! Street: worked rows.
//!
//! Worked rows of `name_map`, `auto_bins`, `value_bins`, `wildcard_bins`, `cross_select`, `trans_seq` and `trans_lists`: each
//! line of standard input is a call with its arguments, and is written again with its answer behind ` =`. The file `stdout`
//! has the answers, worked out by hand after IEEE 1800-2017, clause 19.
#![tactic(auto)]

mod names;
mod patterns;
mod ranges;
mod selections;
mod sequences;
mod windows;
mod words;

use std::alloc::Global;
use std::io;
use std::io::{Input, Print};
use std::process::ExitCode;
use words::{show, split};

/// Writes the answer of a call of sequences.
fn answer_sequences<R: Print>(rt: &R, alloc: Global, call: &str, rest: &str) {
    match call {
        "lists" | "lengths" | "listed" => sequences::lists(rt, alloc, call, rest),
        "together" => sequences::together(rt, alloc, rest),
        "same" => sequences::same(rt, alloc, rest),
        "window" => windows::window(rt, alloc, rest),
        "windows" => windows::windows(rt, alloc, rest),
        _ => show(rt, " no such call"),
    }
}

/// Writes the answer of a call.
fn answer<R: Print>(rt: &R, alloc: Global, call: &str, rest: &str) {
    match call {
        "names" => names::names(rt, alloc, rest),
        "map" => names::map(rt, alloc, rest),
        "auto" => ranges::auto(rt, alloc, rest),
        "values" => ranges::listed(rt, alloc, rest),
        "pattern" => patterns::pattern(rt, alloc, rest),
        "select" => selections::select(rt, alloc, rest),
        "products" => selections::products(rt, alloc, rest),
        _ => answer_sequences(rt, alloc, call, rest),
    }
}

/// Writes a row with its answer.
fn row<R: Print>(rt: &R, alloc: Global, line: &str) -> io::Result<()> {
    print!(rt; "{line} =")?;
    let (call, rest) = split(line, ' ');
    answer(rt, alloc, call, rest);
    println!(rt; "")
}

/// Writes all rows.
fn rows<R: Input + Print>(rt: &R, alloc: Global) -> io::Result<()> {
    for line in rt.lines(alloc) {
        row(rt, alloc, line?.as_str())?;
    }
    Ok(())
}

fn main(rt: HostRuntime) -> ExitCode {
    ExitCode::from(if rows(&rt, rt.alloc()).is_ok() { 0 } else { 1 })
}
