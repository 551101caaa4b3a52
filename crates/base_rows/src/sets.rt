//! Numbers and sets of them.
ghost use Rattle.std.specs.Prelude.{◌≤◌};

use crate::words::{int_of, range_of, show, show_count, show_int, small_of, split};
use bit_width::Width;
use cov_base::{Int, Memory, ValueSet, highest_of, lowest_of, power_of_two, size_of};
use std::alloc::Global;
use std::io::Print;

/// The ranges, as `1:3 6:7`.
fn ranges_of(alloc: Global, text: &str) -> Vec<(Int, Int)> {
    let mut ranges = Vec::new(alloc);
    for word in text.split_whitespace() {
        let _ = ranges.push(range_of(word));
    }
    ranges
}

/// The set of the ranges.
fn set_of(alloc: Global, text: &str) -> Result<ValueSet, Memory> {
    ValueSet::from_ranges(alloc, &ranges_of(alloc, text))
}

fn show_range<R: Print>(rt: &R, low: i128, high: i128) {
    let _ = print!(rt; " {low}:{high}");
}

/// Writes the intervals, and how many numbers they have.
fn show_set<R: Print>(rt: &R, set: &ValueSet) {
    for range in set.intervals() {
        show_range(rt, range.0.get(), range.1.get());
    }
    show_count(rt, set.count());
}

/// Each number, or `none` where it is no `Int`.
pub(crate) fn ints<R: Print>(rt: &R, numbers: &str) {
    for word in numbers.split_whitespace() {
        show_int(rt, int_of(word));
    }
}

/// The ends of a type, and how many numbers it has.
fn show_type<R: Print>(rt: &R, width: Width, signed: bool) {
    show_range(
        rt,
        lowest_of(width, signed).get(),
        highest_of(width, signed).get(),
    );
    show_count(rt, power_of_two(width.get()));
}

/// A type, as `12 signed`.
pub(crate) fn ends<R: Print>(rt: &R, typ: &str) {
    let (width, sign) = split(typ, ' ');
    let width = Width::new(small_of(width).min(255) as u8);
    if let Some(width) = width {
        show_type(rt, width, sign == "signed");
    }
}

/// How many numbers a range has.
pub(crate) fn size<R: Print>(rt: &R, range: &str) {
    let (low, high) = range_of(range);
    show_count(rt, size_of(low, high));
}

/// Writes a set that memory was there for.
fn show_made<R: Print>(rt: &R, set: Result<ValueSet, Memory>) {
    if let Ok(set) = set {
        show_set(rt, &set);
    }
}

/// A set in normal form, which its copy has too.
pub(crate) fn set<R: Print>(rt: &R, alloc: Global, ranges: &str) {
    if let Ok(set) = set_of(alloc, ranges) {
        show_made(rt, set.copy(alloc));
    }
}

/// Writes what a call makes of two sets.
fn show_both<R: Print>(rt: &R, alloc: Global, call: &str, left: &ValueSet, right: &ValueSet) {
    match call {
        "union" => show_made(rt, left.union(alloc, right)),
        "minus" => show_made(rt, left.minus(alloc, right)),
        _ => show(rt, if *left == *right { " equal" } else { " other" }),
    }
}

/// What a call makes of the sets before and behind a `/`.
pub(crate) fn both<R: Print>(rt: &R, alloc: Global, call: &str, sets: &str) {
    let (left, right) = split(sets, '/');
    if let Ok(left) = set_of(alloc, left) {
        if let Ok(right) = set_of(alloc, right) {
            show_both(rt, alloc, call, &left, &right);
        }
    }
}

/// Writes whether each number is in the set.
fn show_in<R: Print>(rt: &R, set: &ValueSet, numbers: &str) {
    for word in numbers.split_whitespace() {
        let is_in = set.contains(int_of(word).unwrap_or(Int::of(0)));
        show(rt, if is_in { " in" } else { " out" });
    }
}

/// Whether each number behind the `/` is in the set.
pub(crate) fn contains<R: Print>(rt: &R, alloc: Global, row: &str) {
    let (ranges, numbers) = split(row, '/');
    if let Ok(set) = set_of(alloc, ranges) {
        show_in(rt, &set, numbers);
    }
}

/// Writes the number at each place.
fn show_nth<R: Print>(rt: &R, set: &ValueSet, places: &str) {
    for word in places.split_whitespace() {
        show_int(rt, set.nth(word.parse().unwrap_or(0)));
    }
}

/// The number at each place behind the `/`, or `none`.
pub(crate) fn nth<R: Print>(rt: &R, alloc: Global, row: &str) {
    let (ranges, places) = split(row, '/');
    if let Ok(set) = set_of(alloc, ranges) {
        show_nth(rt, &set, places);
    }
}
