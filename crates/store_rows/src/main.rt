//! Worked rows of a store, which stands beside a plain store over the same history, whose answers are worked out anew from
//! their definitions.
//!
//! A line `design TEXT` begins the history of a design, and `alone TEXT` that of a store without a plain one, for what is too
//! long for that. `admit ID STEPS` asks to admit a record, whose steps are `S=V`, which sets signal S to V, and `I`, which
//! samples instance I; `revise TEXT` asks to take the design of a text; the other asks are questions and exclusions.
//! `late ASK <- OTHER` makes an ask ready, then puts the other, and then that one. `many N STEPS` admits the records n0, n1
//! and so on to both stores, of which the plain one works no answers out meanwhile; `again N PATH` asks so often for a
//! coverage, and `random N SEED` puts N times 100 random asks, each time over a history of their own. `export FORM` shows
//! the store in the form `bins`, `holes`, `json` or `ucis`. Each line is written again, and behind it what the store
//! answers; where the plain store answers otherwise, a line says so.
#![tactic(auto)]

mod exports;
mod many;
mod random;
mod serving;
mod stores;
mod twins;

use ask_rows::{say, say_count, say_number, split};
use exports::export;
use many::{again, many};
use random::random;
use serving::{Told, late, served};
use std::alloc::Global;
use std::io;
use std::io::{Input, Print};
use std::process::ExitCode;
use std::thread::Threads;
use stores::Stores;

/// Writes what a line is told.
fn write_told<R: Print>(rt: &R, told: &Told) {
    say(rt, told.text.as_str());
    if !told.alike {
        say(rt, "otherwise by definition");
    }
}

fn write_if_told<R: Print>(rt: &R, told: &Option<Told>) {
    match told {
        Some(told) => write_told(rt, told),
        None => say(rt, "not made for this history"),
    }
}

/// Makes an ask ready, puts another, and then that one.
fn write_late<R: Threads + Sync + Print>(rt: &R, alloc: Global, stores: &mut Stores, words: &str) {
    let (first, second) = words.split_once(" <- ").unwrap_or((words, ""));
    let (before, behind) = late(rt, alloc, stores, first, second);
    write_if_told(rt, &before);
    write_if_told(rt, &behind);
}

/// Takes a line of a history.
fn call<R: Threads + Sync + Print>(rt: &R, alloc: Global, stores: &mut Stores, line: &str) {
    let (verb, words) = split(line);
    match verb {
        "late" => write_late(rt, alloc, stores, words),
        "many" => say_count(rt, many(rt, alloc, stores, words), "new"),
        "again" => say_count(rt, again(&stores.store, words), "alike"),
        "point" => say_number(rt, stores.store.point()),
        "export" => export(rt, alloc, &stores.store, words),
        _ => write_if_told(rt, &served(rt, alloc, stores, line)),
    }
}

/// Takes a line over the stores of now.
fn over<R: Threads + Sync + Print>(rt: &R, alloc: Global, stores: &mut Option<Stores>, line: &str) {
    match stores {
        Some(stores) => call(rt, alloc, stores, line),
        None => say(rt, "no design"),
    }
}

/// Takes a line, which may begin other stores.
fn row<R: Threads + Sync + Print>(rt: &R, alloc: Global, stores: &mut Option<Stores>, line: &str) {
    say(rt, line);
    let (verb, words) = split(line);
    match verb {
        "design" => *stores = Stores::of(alloc, words, false),
        "alone" => *stores = Stores::of(alloc, words, true),
        "random" => say_count(rt, random(rt, alloc, words), "otherwise"),
        _ => over(rt, alloc, stores, line),
    }
}

/// Takes all lines.
fn rows<R: Threads + Sync + Input + Print>(
    rt: &R,
    alloc: Global,
    stores: &mut Option<Stores>,
) -> io::Result<()> {
    for line in rt.lines(alloc) {
        row(rt, alloc, stores, line?.as_str());
    }
    Ok(())
}

fn main(rt: HostRuntime) -> ExitCode {
    let mut stores = None;
    ExitCode::from(if rows(&rt, rt.alloc(), &mut stores).is_ok() {
        0
    } else {
        1
    })
}
