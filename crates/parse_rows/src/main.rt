//! Street: worked rows.
//!
//! Worked rows of `cov_parser`: each line of standard input is a design text, in which a unit between two backquotes, with
//! a number before it, stands so many times. It is written again, and behind it its tree, or its first fault with its
//! place. Of a text with such a unit only that it has a tree. The file `stdout` has the answers, worked out by hand.
#![tactic(auto)]

mod shown;

use cov_lexer::lex;
use cov_parser::parse;
use cov_tree::DesignText;
use shown::Shown;
use std::alloc::Global;
use std::io;
use std::io::{Input, Print};
use std::process::ExitCode;

/// The most bytes of a design text.
const MOST: usize = 1_048_576;

/// A unit as many times as the number before it says; nothing where there is no number.
fn repeat(text: &mut Vec<u8>, part: &str) {
    let (times, unit) = part.split_once(' ').unwrap_or((part, ""));
    for _ in 0..times.parse::<u16>().unwrap_or(0) {
        let _ = text.extend_from_slice(unit.as_bytes());
    }
}

/// The text of a row. What can't be kept of it is missing.
fn text_of(alloc: Global, line: &str) -> Vec<u8> {
    let mut text = Vec::new(alloc);
    let mut repeated = false;
    for part in line.split('`') {
        if repeated {
            repeat(&mut text, part);
        } else {
            let _ = text.extend_from_slice(part.as_bytes());
        }
        repeated = !repeated;
    }
    text
}

/// Writes a tree, or only that there is one.
fn show_design<R: Print>(
    rt: &R,
    alloc: Global,
    design: &DesignText,
    briefly: bool,
) -> io::Result<()> {
    if briefly {
        return println!(rt; "a tree");
    }
    let mut shown = Shown::new(alloc);
    shown.design(design);
    print!(rt; "{}", shown.as_str())
}

/// Writes the tree of a text, or its fault.
fn show<R: Print>(rt: &R, alloc: Global, text: &[u8], briefly: bool) -> io::Result<()> {
    if text.len() > MOST {
        return println!(rt; "too long");
    }
    match lex(alloc, text) {
        Ok(tokens) => match parse(alloc, text, tokens.as_slice()) {
            Ok(design) => show_design(rt, alloc, &design, briefly),
            Err(fault) => println!(rt; "{fault}"),
        },
        Err(fault) => println!(rt; "{fault}"),
    }
}

/// Writes a row with its answer.
fn row<R: Print>(rt: &R, alloc: Global, line: &str) -> io::Result<()> {
    println!(rt; "$ {line}")?;
    let text = text_of(alloc, line);
    show(rt, alloc, text.as_slice(), line.contains('`'))
}

/// Writes all rows.
fn rows<R: Input + Print>(rt: &R, alloc: Global) -> io::Result<()> {
    for line in rt.lines(alloc) {
        row(rt, alloc, line?.as_str())?;
    }
    Ok(())
}

fn main(rt: HostRuntime) -> ExitCode {
    ExitCode::from(if rows(&rt, rt.alloc()).is_ok() { 0 } else { 1 })
}
