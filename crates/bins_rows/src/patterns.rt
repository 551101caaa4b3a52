//! Patterns of narrow and wide numbers, as tests and as sets.

use crate::ranges::typ_of;
use crate::words::{int_of, show, show_fault, show_few, split};
use std::alloc::Global;
use std::io::Print;
use wildcard_bins::Pattern;

/// The bits that a word spells.
fn bits_of(word: &str) -> u64 {
    word.parse().unwrap_or(0)
}

/// The pattern of a type, its bits, and those that are free.
fn pattern_of(typ: &str, bits: &str, free: &str) -> Pattern {
    let typ = typ_of(typ);
    Pattern {
        width: typ.width,
        signed: typ.signed,
        bits: bits_of(bits),
        free: bits_of(free),
    }
}

/// Writes whether each number agrees with the pattern.
fn show_agrees<R: Print>(rt: &R, pattern: Pattern, numbers: &str) {
    for word in numbers.split(',') {
        let agrees = pattern.matches(int_of(word));
        show(rt, if agrees { " yes" } else { " no" });
    }
}

/// Writes the ranges of a pattern.
fn show_set<R: Print>(rt: &R, alloc: Global, pattern: Pattern) {
    match pattern.as_set(alloc) {
        Ok(set) => show_few(rt, set.intervals()),
        Err(fault) => show_fault(rt, &fault),
    }
}

/// TYPE BITS FREE: the ranges of a pattern; with numbers behind a blank whether each agrees with it.
pub(crate) fn pattern<R: Print>(rt: &R, alloc: Global, row: &str) {
    let (typ, rest) = split(row, ' ');
    let (bits, rest) = split(rest, ' ');
    let (free, numbers) = split(rest, ' ');
    let pattern = pattern_of(typ, bits, free);
    if numbers.is_empty() {
        show_set(rt, alloc, pattern);
    } else {
        show_agrees(rt, pattern, numbers);
    }
}
