//! Street: worked rows.
//!
//! Worked rows of `cov_counting`, `sampler` and `vcd_reader`. A line `count TEXT # SAMPLES` of standard input is a design
//! text of one instance, and samples; a line `dump DUMP` is a dump. Each is written again with its answer and without its
//! first word (`counts`, `dumps`). The file `stdout` has the answers, written by hand.
#![tactic(auto)]

mod counts;
mod dumps;
mod samples;

use std::alloc::Global;
use std::io::{Input, Print};

/// Writes a row with its answer.
fn row<R: Print>(rt: &R, alloc: Global, line: &str) {
    match line.split_once(' ') {
        Some(("count", row)) => counts::row(rt, alloc, row),
        Some(("dump", row)) => dumps::row(rt, alloc, row),
        _ => {
            let _ = println!(rt; "no such row");
        }
    }
}

/// Writes all rows.
fn rows<R: Input + Print>(rt: &R, alloc: Global) {
    for line in rt.lines(alloc) {
        if let Ok(line) = line {
            row(rt, alloc, line.as_str());
        }
    }
}

fn main(rt: HostRuntime) {
    rows(&rt, rt.alloc());
}
