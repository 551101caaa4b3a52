//! The words of a row, and what is written for it. What can't be read counts as 0, and what can't be kept or written is
//! missing: the row then isn't as `stdout` has it.
ghost use Rattle.std.specs.Prelude.{◌<◌};

use cov_base::Int;
use std::alloc::Global;
use std::io::Print;

/// The number that a word spells.
pub(crate) fn int_of(word: &str) -> Option<Int> {
    Int::new(word.parse().unwrap_or(0))
}

/// The ends that a word spells, as `1:3`.
pub(crate) fn range_of(word: &str) -> (Int, Int) {
    let (low, high) = split(word, ':');
    let zero = Int::of(0);
    (int_of(low).unwrap_or(zero), int_of(high).unwrap_or(zero))
}

/// The small number that a word spells.
pub(crate) fn small_of(word: &str) -> u64 {
    word.parse().unwrap_or(0)
}

/// The most bytes of a piece, at least one.
pub(crate) fn piece_of(word: &str) -> usize
    ensures { 0 < result }
{
    let piece: usize = word.parse().unwrap_or(1);
    piece.max(1)
}

/// The texts before and behind a sign.
pub(crate) fn split(text: &str, sign: char) -> (&str, &str) {
    text.split_once(sign).unwrap_or((text, ""))
}

/// The numbers that a word spells, as `0,2`; none at all where it is `-`.
pub(crate) fn calls_of(alloc: Global, word: &str) -> Vec<u64> {
    let mut calls = Vec::new(alloc);
    if word == "-" {
        return calls;
    }
    for part in word.split(',') {
        let _ = calls.push(small_of(part));
    }
    calls
}

/// The bytes of a word.
pub(crate) fn bytes_of(alloc: Global, word: &str) -> Vec<u8> {
    Vec::from_slice(alloc, word.as_bytes()).unwrap_or(Vec::new(alloc))
}

/// Writes a text.
pub(crate) fn show<R: Print>(rt: &R, text: &str) {
    let _ = print!(rt; "{text}");
}

/// Writes a word behind a blank.
pub(crate) fn show_word<R: Print>(rt: &R, word: &str) {
    let _ = print!(rt; " {word}");
}

/// Writes a number behind a blank.
pub(crate) fn show_number<R: Print>(rt: &R, number: i128) {
    let _ = print!(rt; " {number}");
}

/// Writes the number behind a blank, or `none`.
pub(crate) fn show_int<R: Print>(rt: &R, int: Option<Int>) {
    match int {
        Some(int) => show_number(rt, int.get()),
        None => show(rt, " none"),
    }
}

/// Writes how many there are.
pub(crate) fn show_count<R: Print>(rt: &R, count: u128) {
    let _ = print!(rt; " | {count}");
}

/// Writes bytes as text.
pub(crate) fn show_bytes<R: Print>(rt: &R, bytes: &[u8]) {
    show(rt, str::from_utf8(bytes).unwrap_or("?"));
}

/// Writes what an object has in the end.
pub(crate) fn show_contents<R: Print>(rt: &R, bytes: Option<&[u8]>) {
    show(rt, " | ");
    show_bytes(rt, bytes.unwrap_or(b"?"));
}
