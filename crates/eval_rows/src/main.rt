//! Street: worked rows.
//!
//! Worked rows of `const_eval`: each line of standard input is an expression in postfix words, and is written again with
//! its value behind ` = `, `x` where that is unknown, or with its first fault, whose place is the number of a word. The
//! file `stdout` has the answers, written by hand after IEEE 1800-2017, clause 11.
#![tactic(auto)]

mod names;
mod words;

use const_eval::{Bound, Scope, bind, eval};
use cov_base::Int;
use std::alloc::Global;
use std::io;
use std::io::{Input, Print};
use std::process::ExitCode;

/// Writes a value behind its row.
fn show_value<R: Print>(rt: &R, line: &str, value: Option<Int>) -> io::Result<()> {
    match value {
        Some(number) => println!(rt; "{line} = {}", number.get()),
        None => println!(rt; "{line} = x"),
    }
}

/// Writes the value of an expression, by a copy of it.
fn show<R: Print>(
    rt: &R,
    alloc: Global,
    line: &str,
    bound: &Bound,
    signals: &[Option<Int>],
) -> io::Result<()> {
    match bound.copy(alloc) {
        Ok(copy) => show_value(rt, line, eval(&copy, signals, Int::new(-2))),
        Err(_) => println!(rt; "{line} : no copy"),
    }
}

/// Writes a row with its answer.
fn row<R: Print>(
    rt: &R,
    alloc: Global,
    scope: &Scope,
    signals: &[Option<Int>],
    line: &str,
) -> io::Result<()> {
    let Some(tree) = words::tree(alloc, line) else {
        return println!(rt; "{line} : no expression");
    };
    match bind(alloc, &tree, scope) {
        Ok(bound) => show(rt, alloc, line, &bound, signals),
        Err(fault) => println!(rt; "{line} : {fault}"),
    }
}

/// Writes all rows.
fn rows<R: Input + Print>(
    rt: &R,
    alloc: Global,
    scope: &Scope,
    signals: &[Option<Int>],
) -> io::Result<()> {
    for line in rt.lines(alloc) {
        row(rt, alloc, scope, signals, line?.as_str())?;
    }
    Ok(())
}

fn main(rt: HostRuntime) -> ExitCode {
    let alloc = rt.alloc();
    let Some(scope) = names::scope(alloc) else {
        return ExitCode::from(1);
    };
    let Some(signals) = names::signals(alloc) else {
        return ExitCode::from(1);
    };
    ExitCode::from(if rows(&rt, alloc, &scope, signals.as_slice()).is_ok() {
        0
    } else {
        1
    })
}
