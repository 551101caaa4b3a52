//! Answers of automata: `transitions SHAPE SAMPLES` pushes that many samples through one of two automata, and prints how
//! many answers are true, and how many runs there are at the end.
//!
//! `steady` has the sequence `1 => 2[=1] => 3`, a 1, a 2, and then 3 alone: one run, and each 3 ends a window.
//! `hostile` has a sequence for each of nine bits: a number below 512 with that bit, and then one that never comes. In
//! the end each of the 511 sets of bits is a run, and so is the latest start.

use crate::answers::Found;
use crate::random::after;
use crate::words::{number_at, text_at};
use cov_base::{Int, ValueSet};
use cov_tree::List;
use std::alloc::Global;
use trans_auto::{Automaton, TransState};
use trans_seq::{Item, Repeat, Seq};

/// How many bits the numbers of `hostile` have.
const BITS: u32 = 9;

/// The number that never comes.
const NEVER: i128 = 1000;

/// The range of one number, which is in the range of an `Int`.
fn just(number: i128) -> (Int, Int) {
    let int = Int::new(number).unwrap_or(Int::of(0));
    (int, int)
}

/// Adds an item of the numbers in the ranges.
fn add_item(alloc: Global, items: &mut Vec<Item>, ranges: &[(Int, Int)], repeat: Repeat) {
    if let Ok(set) = ValueSet::from_ranges(alloc, ranges) {
        let _ = items.push(Item { set, repeat });
    }
}

/// Adds the sequence of some items, if there are as many as are wanted.
fn add_seq(seqs: &mut Vec<Seq>, items: Vec<Item>, wanted: usize) {
    if items.len() == wanted {
        let items = List::of(items);
        let _ = seqs.push(Seq { items });
    }
}

/// `1 => 2[=1] => 3`
fn steady(alloc: Global) -> Vec<Seq> {
    let mut items = Vec::new(alloc);
    add_item(alloc, &mut items, &[just(1)], Repeat::Once);
    let gaps = Repeat::NonConsec { low: 1, high: 1 };
    add_item(alloc, &mut items, &[just(2)], gaps);
    add_item(alloc, &mut items, &[just(3)], Repeat::Once);
    let mut seqs = Vec::new(alloc);
    add_seq(&mut seqs, items, 3);
    seqs
}

/// Adds an item of the numbers below 512 that have the bit.
fn add_bit(alloc: Global, items: &mut Vec<Item>, bit: u32) {
    let mut ranges = Vec::new(alloc);
    for number in 0u32..512 {
        if number.wrapping_shr(bit) % 2 == 1 {
            let _ = ranges.push(just(i128::from(number)));
        }
    }
    if ranges.len() == 256 {
        add_item(alloc, items, &ranges, Repeat::Once);
    }
}

/// Adds the sequence of a number that has the bit, and then one that never comes.
fn add_hostile(alloc: Global, seqs: &mut Vec<Seq>, bit: u32) {
    let mut items = Vec::new(alloc);
    add_bit(alloc, &mut items, bit);
    let next = Repeat::Goto { low: 1, high: 1 };
    add_item(alloc, &mut items, &[just(NEVER)], next);
    add_seq(seqs, items, 2);
}

/// Such a sequence for each bit.
fn hostile(alloc: Global) -> Vec<Seq> {
    let mut seqs = Vec::new(alloc);
    for bit in 0..BITS {
        add_hostile(alloc, &mut seqs, bit);
    }
    seqs
}

/// The k-th sample of `steady`.
fn steady_sample(k: u32) -> i128 {
    match k {
        0 => 1,
        1 => 2,
        _ => 3,
    }
}

/// How many answers to so many samples are true.
fn pushed(
    automaton: &Automaton,
    state: &mut TransState,
    samples: u32,
    is_steady: bool,
) -> Option<u32> {
    let mut count = 0u32;
    let mut seed = 1u64;
    for k in 0..samples {
        seed = after(seed);
        let value = if is_steady {
            steady_sample(k)
        } else {
            i128::from(seed >> 55)
        };
        let sample = Int::new(value);
        if automaton.push(state, sample).ok()? {
            count = count.wrapping_add(1);
        }
    }
    Some(count)
}

/// How many answers are true, and how many runs there are at the end.
fn counted(automaton: &Automaton, samples: u32, is_steady: bool) -> Option<Found> {
    let mut state = automaton.start();
    match pushed(automaton, &mut state, samples, is_steady) {
        Some(count) => Some(Found::Two(u64::from(count), state.runs.len() as u64)),
        None => None,
    }
}

/// The same, of the automaton of so many sequences.
fn counted_by(
    alloc: Global,
    seqs: &[Seq],
    wanted: usize,
    samples: u32,
    is_steady: bool,
) -> Option<Found> {
    if seqs.len() != wanted {
        return None;
    }
    match Automaton::new(alloc, seqs, &[]) {
        Ok(automaton) => counted(&automaton, samples, is_steady),
        Err(_) => None,
    }
}

/// Does the measurement of these words; None where they aren't right, something is refused, or memory ran out.
pub fn measured(alloc: Global, words: &[String]) -> Option<Found> {
    match (text_at(words, 0), number_at(words, 1)) {
        ("steady", Some(samples)) => counted_by(alloc, &steady(alloc), 1, samples, true),
        (_, Some(samples)) => counted_by(alloc, &hostile(alloc), BITS as usize, samples, false),
        _ => None,
    }
}
