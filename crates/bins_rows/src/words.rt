//! The words of a row, and what is written for it. What can't be read counts as 0, and what can't be kept or written is
//! missing: the row then isn't as `stdout` has it.
use cov_base::Int;
use std::alloc::Global;
use std::fmt::Display;
use std::io::Print;
use std::slice;

/// The number that a word spells, or 0.
pub(crate) fn int_of(word: &str) -> Int {
    Int::new(word.parse().unwrap_or(0)).unwrap_or(Int::of(0))
}

/// The small number that a word spells.
pub(crate) fn small_of(word: &str) -> u32 {
    word.parse().unwrap_or(0)
}

/// The texts before and behind a sign.
pub(crate) fn split(text: &str, sign: char) -> (&str, &str) {
    text.split_once(sign).unwrap_or((text, ""))
}

/// The ends that a word spells, as `1:3`, or as `2` for `2:2`.
fn range_of(word: &str) -> (Int, Int) {
    let (low, high) = word.split_once(':').unwrap_or((word, word));
    (int_of(low), int_of(high))
}

/// The ranges, as `1:3,6`; none at all where it is `-`.
pub(crate) fn ranges_of(alloc: Global, text: &str) -> Vec<(Int, Int)> {
    let mut ranges = Vec::new(alloc);
    if text == "-" {
        return ranges;
    }
    for word in text.split(',') {
        let _ = ranges.push(range_of(word));
    }
    ranges
}

/// The numbers, as `0,2`; none at all where it is `-`.
pub(crate) fn numbers_of(alloc: Global, text: &str) -> Vec<u32> {
    let mut numbers = Vec::new(alloc);
    if text == "-" {
        return numbers;
    }
    for word in text.split(',') {
        let _ = numbers.push(small_of(word));
    }
    numbers
}

/// Writes a text.
pub(crate) fn show<R: Print>(rt: &R, text: &str) {
    let _ = print!(rt; "{text}");
}

/// Writes a number behind a blank.
pub(crate) fn show_number<R: Print>(rt: &R, number: i128) {
    let _ = print!(rt; " {number}");
}

/// Writes how many there are.
pub(crate) fn show_count<R: Print>(rt: &R, count: usize) {
    let _ = print!(rt; " | {count}");
}

/// Writes why there is no other answer.
pub(crate) fn show_fault<R: Print, F: Display>(rt: &R, fault: &F) {
    let _ = print!(rt; " {fault}");
}

/// Writes the ends of a range.
fn show_range<R: Print>(rt: &R, low: i128, high: i128) {
    let _ = print!(rt; " {low}:{high}");
}

/// Writes all ranges.
pub(crate) fn show_ranges<R: Print>(rt: &R, ranges: &[(Int, Int)]) {
    for range in ranges {
        show_range(rt, range.0.get(), range.1.get());
    }
}

/// The ranges where they are eight at most, else the first and the last.
fn few(ranges: &[(Int, Int)]) -> (&[(Int, Int)], &[(Int, Int)]) {
    match ranges {
        [first, .., last] if ranges.len() > 8 => (slice::from_ref(first), slice::from_ref(last)),
        _ => (ranges, &[]),
    }
}

/// Writes all ranges, of more than eight the first and the last alone, and how many there are.
pub(crate) fn show_few<R: Print>(rt: &R, ranges: &[(Int, Int)]) {
    let (front, back) = few(ranges);
    show_ranges(rt, front);
    show_ranges(rt, back);
    show_count(rt, ranges.len());
}
