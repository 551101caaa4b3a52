//! Records under designs: `sampling DESIGN RECORD WORD ROUNDS` compiles the design text, decodes the record, and does so
//! many times what the word says. It prints how many bins there are, and of the counts the sum of each times its bin's
//! number and one.
//!
//! The words: `plan` works the tables out of the design, `decode` decodes the record, `count` counts by ready tables,
//! `threads` does so in threads, and `whole` does all of it once more, the design text aside.

use bench_values::{Found, bytes_at, number_at, text_at};
use cov_base::Memory;
use cov_compile::compile;
use design_data::Design;
use record_codec::{Record, decode};
use sampler::{Plan, bin_record, counts_under};
use sampler_threads::counts_par_under;
use std::alloc::Global;
use std::rt::Files;
use std::thread::Threads;
use tally::Tally;

/// The most bytes of a design text.
const LONGEST_DESIGN: usize = 1_048_576;

/// The most bytes that are decoded.
const MOST: usize = 8_388_608;

/// The sum of the counts, each times its bin's number and one.
fn sum_of(counts: &[u64]) -> u64 {
    let mut sum = 0u64;
    for (number, count) in counts.iter().enumerate() {
        sum = sum.wrapping_add(count.wrapping_mul((number as u64).wrapping_add(1)));
    }
    sum
}

/// The sum of counts, if there are any.
fn sum_if(counts: Result<Vec<u64>, Memory>) -> Option<u64> {
    match counts {
        Ok(counts) => Some(sum_of(&counts)),
        Err(_) => None,
    }
}

/// How many bins a tally has counts of.
fn rows_of(tally: Result<Tally, Memory>) -> Option<u64> {
    match tally {
        Ok(tally) => Some(tally.rows().len() as u64),
        Err(_) => None,
    }
}

fn plans(alloc: Global, design: &Design, rounds: u32) -> Option<u64> {
    let mut done = true;
    for _ in 0..rounds {
        done &= Plan::of(alloc, design).is_ok();
    }
    if done { Some(0) } else { None }
}

fn counted(alloc: Global, design: &Design, rec: &Record, rounds: u32) -> Option<u64> {
    let Ok(plan) = Plan::of(alloc, design) else {
        return None;
    };
    let mut sum = Some(0);
    for _ in 0..rounds {
        sum = sum_if(counts_under(alloc, &plan, design, rec));
    }
    sum
}

fn counted_in_threads<R: Threads + Sync>(
    rt: &R,
    alloc: Global,
    design: &Design,
    rec: &Record,
    rounds: u32,
) -> Option<u64> {
    let Ok(plan) = Plan::of(alloc, design) else {
        return None;
    };
    let mut sum = Some(0);
    for _ in 0..rounds {
        sum = sum_if(counts_par_under(rt, alloc, &plan, design, rec));
    }
    sum
}

/// What the word says, done with a record.
fn done_with<R: Threads + Sync>(
    rt: &R,
    alloc: Global,
    design: &Design,
    rec: &Record,
    word: &str,
    rounds: u32,
) -> Option<u64> {
    match word {
        "count" => counted(alloc, design, rec, rounds),
        "threads" => counted_in_threads(rt, alloc, design, rec, rounds),
        "whole" => rows_of(bin_record(alloc, design, rec)),
        _ => Some(0),
    }
}

/// The same, with the record of the bytes.
fn decoded<R: Threads + Sync>(
    rt: &R,
    alloc: Global,
    design: &Design,
    bytes: &[u8],
    word: &str,
    rounds: u32,
) -> Option<u64> {
    if bytes.len() > MOST {
        return None;
    }
    match decode(alloc, bytes) {
        Ok(rec) => done_with(rt, alloc, design, &rec, word, rounds),
        Err(_) => None,
    }
}

/// The same, so many times, with the record decoded each time.
fn decoded_often<R: Threads + Sync>(
    rt: &R,
    alloc: Global,
    design: &Design,
    bytes: &[u8],
    word: &str,
    rounds: u32,
) -> Option<u64> {
    let mut found = Some(0);
    for _ in 0..rounds {
        found = decoded(rt, alloc, design, bytes, word, 1);
    }
    found
}

fn work<R: Threads + Sync>(
    rt: &R,
    alloc: Global,
    design: &Design,
    bytes: &[u8],
    word: &str,
    rounds: u32,
) -> Option<u64> {
    match word {
        "plan" => plans(alloc, design, rounds),
        "count" | "threads" => decoded(rt, alloc, design, bytes, word, rounds),
        "decode" | "whole" => decoded_often(rt, alloc, design, bytes, word, rounds),
        _ => None,
    }
}

/// The design that a text declares.
fn design_of(alloc: Global, text: &[u8]) -> Option<Design> {
    if text.len() > LONGEST_DESIGN {
        return None;
    }
    compile(alloc, text).ok()
}

/// What the words behind the files name, done under a design.
fn done<R: Threads + Sync>(
    rt: &R,
    alloc: Global,
    design: &Design,
    bytes: &[u8],
    words: &[String],
) -> Option<Found> {
    let rounds = number_at(words, 3)?;
    let sum = work(rt, alloc, design, bytes, text_at(words, 2), rounds)?;
    Some(Found::Two(u64::from(design.bin_count()), sum))
}

/// The same, under the design of a text.
fn done_under<R: Threads + Sync>(
    rt: &R,
    alloc: Global,
    text: &[u8],
    bytes: &[u8],
    words: &[String],
) -> Option<Found> {
    match design_of(alloc, text) {
        Some(design) => done(rt, alloc, &design, bytes, words),
        None => None,
    }
}

pub(crate) fn measured<R: Threads + Sync + Files + AllocGlobal>(
    rt: &R,
    words: &[String],
) -> Option<Found> {
    if let Some(text) = bytes_at(rt, words, 0)
        && let Some(bytes) = bytes_at(rt, words, 1)
    {
        done_under(rt, rt.alloc(), &text, &bytes, words)
    } else {
        None
    }
}
