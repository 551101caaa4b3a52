//! Street: measurements.
//!
//! `bench WORDS` does what is measured by the scripts of `bench/`, which take its time and its memory from outside. The
//! first word is one of those below, and the others are its arguments; several measurements stand one after another with
//! `,` between. Each prints a line, which says so where its words aren't right, something is refused or memory ran out.
#![tactic(auto)]

mod dumps;
mod lexing;
mod messages;
mod parsing;
mod records;
mod sampling;
mod turns;

use bench_values::{Found, expressions, ranking, show, transitions};
use std::env;
use std::env::Env;
use std::io::Print;
use std::rt::Files;
use std::sync::Wait;
use std::thread::Threads;

/// Does a measurement of values, or of what many tests have.
fn measured_values<R: Threads + Wait + Sync + AllocGlobal>(
    rt: &R,
    call: &str,
    words: &[String],
) -> Option<Found> {
    match call {
        "expressions" => expressions::measured(rt.alloc(), words),
        "transitions" => transitions::measured(rt.alloc(), words),
        "ranking" => ranking::measured(rt, words),
        "turns" => turns::measured(rt, words),
        "messages" => messages::measured(rt.alloc(), words),
        _ => None,
    }
}

/// Does a measurement; None where it can't be done.
fn measured<R: Threads + Wait + Sync + Files + AllocGlobal>(
    rt: &R,
    call: &str,
    words: &[String],
) -> Option<Found> {
    match call {
        "lexing" => lexing::measured(rt, words),
        "parsing" => parsing::measured(rt, words),
        "records" => records::measured(rt, words),
        "sampling" => sampling::measured(rt, words),
        "dumps" => dumps::measured(rt, words),
        _ => measured_values(rt, call, words),
    }
}

/// Does the measurement of some words, if there are any.
fn measure<R: Threads + Wait + Sync + Files + Print + AllocGlobal>(rt: &R, words: &[String]) {
    if let [call, rest @ ..] = words {
        show(rt, call.as_str(), measured(rt, call.as_str(), rest));
    }
}

/// Does all measurements, one after another.
fn measure_all<R: Threads + Wait + Sync + Files + Print + AllocGlobal>(rt: &R, words: &[String]) {
    let mut from = 0;
    for (at, word) in words.iter().enumerate() {
        if word.as_str() == "," {
            measure(rt, words.get(from..at).unwrap_or(&[]));
            from = at.saturating_add(1);
        }
    }
    measure(rt, words.get(from..).unwrap_or(&[]));
}

/// The words behind the program's name.
fn words_of<R: Env + AllocGlobal>(rt: &R) -> Vec<String> {
    let mut words = Vec::new(rt.alloc());
    if let Ok(args) = env::args(rt) {
        for word in args.skip(1) {
            let _ = words.push(word);
        }
    }
    words
}

fn main(rt: HostRuntime) {
    measure_all(&rt, &words_of(&rt));
}
