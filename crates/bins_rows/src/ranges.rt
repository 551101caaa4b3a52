//! Automatic bins, and range lists spread, taken one by one and filtered.
ghost use Rattle.std.specs.Prelude.{◌≤◌};

use crate::words::{
    ranges_of, show, show_fault, show_few, show_number, show_ranges, small_of, split,
};
use auto_bins::{Typ2, auto_ranges};
use bit_width::Width;
use cov_base::{Int, ValueSet};
use std::alloc::Global;
use std::io::Print;
use value_bins::{Elems, filter_with, singles, spread};

/// A width, 1 to 64.
fn width_of(word: &str) -> Width {
    Width::of(small_of(word).clamp(1, 64) as u8)
}

/// A type's width, and whether it has a sign: as `12s` or `12u`.
pub(crate) fn typ_of(word: &str) -> Typ2 {
    Typ2 {
        width: width_of(word.trim_end_matches(['s', 'u'])),
        signed: word.ends_with('s'),
    }
}

/// The most bins, 1 to 65,536.
fn most_of(word: &str) -> u32
    ensures some { 1 ≤ result }
    ensures most { result ≤ 65536 }
{
    small_of(word).clamp(1, 65_536)
}

/// TYPE MOST: the automatic bins.
pub(crate) fn auto<R: Print>(rt: &R, alloc: Global, row: &str) {
    let (typ, most) = split(row, ' ');
    if let Ok(ranges) = auto_ranges(alloc, typ_of(typ), most_of(most)) {
        show_few(rt, &ranges);
    }
}

/// Writes the intervals of each set, behind a `|`.
fn show_sets<R: Print>(rt: &R, sets: &[ValueSet]) {
    for set in sets {
        show(rt, " |");
        show_ranges(rt, set.intervals());
    }
}

/// Writes the sets of so many bins.
fn show_spread<R: Print>(rt: &R, alloc: Global, elems: &Elems, bins: u32) {
    match spread(alloc, elems, bins) {
        Ok(sets) => show_sets(rt, &sets),
        Err(fault) => show_fault(rt, &fault),
    }
}

/// Writes all numbers.
fn show_ints<R: Print>(rt: &R, numbers: &[Int]) {
    for number in numbers {
        show_number(rt, number.get());
    }
}

/// Writes each number of the range list once.
fn show_singles<R: Print>(rt: &R, alloc: Global, elems: &Elems) {
    match singles(alloc, elems) {
        Ok(numbers) => show_ints(rt, &numbers),
        Err(fault) => show_fault(rt, &fault),
    }
}

/// Writes what is kept of the range list: the numbers that have the bits of a mask.
fn show_kept<R: Print>(rt: &R, alloc: Global, elems: &Elems, mask: i128) {
    match filter_with(alloc, elems, &|number: Int| number.get() & mask == mask) {
        Ok(kept) => show_ranges(rt, kept.as_slice()),
        Err(fault) => show_fault(rt, &fault),
    }
}

/// Writes what a call makes of the range list.
fn show_listed<R: Print>(rt: &R, alloc: Global, call: &str, elems: &Elems) {
    match call {
        "singles" => show_singles(rt, alloc, elems),
        "odd" => show_kept(rt, alloc, elems, 1),
        "all" => show_kept(rt, alloc, elems, 0),
        bins => show_spread(rt, alloc, elems, small_of(bins)),
    }
}

/// COUNT RANGES: the range list spread over so many bins, each behind a `|`; each of its numbers once, where COUNT is
/// `singles`; or its numbers that are odd, or all of them.
pub(crate) fn listed<R: Print>(rt: &R, alloc: Global, row: &str) {
    let (call, ranges) = split(row, ' ');
    show_listed(rt, alloc, call, &Elems::of(ranges_of(alloc, ranges)));
}
