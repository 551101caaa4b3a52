//! The words of a row, and what is written for it. What can't be read counts as 0, and what can't be kept or written is
//! missing: the row then isn't as `stdout` has it.
use std::alloc::Global;
use std::fmt::Display;
use std::io::Print;

/// The number that a word spells.
pub(crate) fn number_of(word: &str) -> u64 {
    word.parse().unwrap_or(0)
}

/// The small number that a word spells.
pub(crate) fn small_of(word: &str) -> u32 {
    word.parse().unwrap_or(0)
}

/// The texts before and behind a sign.
pub(crate) fn split(text: &str, sign: char) -> (&str, &str) {
    text.split_once(sign).unwrap_or((text, ""))
}

/// The numbers, as `0,2`; none at all where it is `-`.
pub(crate) fn numbers_of(alloc: Global, text: &str) -> Vec<u64> {
    let mut numbers = Vec::new(alloc);
    if text == "-" {
        return numbers;
    }
    for word in text.split(',') {
        let _ = numbers.push(number_of(word));
    }
    numbers
}

/// The pair that a word spells, as `1:3`.
fn pair_of(word: &str) -> (u32, u32) {
    let (first, second) = split(word, ':');
    (small_of(first), small_of(second))
}

/// The pairs, as `0:2,1:3`; none at all where it is `-`.
pub(crate) fn pairs_of(alloc: Global, text: &str) -> Vec<(u32, u32)> {
    let mut pairs = Vec::new(alloc);
    if text == "-" {
        return pairs;
    }
    for word in text.split(',') {
        let _ = pairs.push(pair_of(word));
    }
    pairs
}

/// The bytes that digits spell.
pub(crate) fn bytes_of(alloc: Global, digits: &str) -> Vec<u8> {
    hex::decode(alloc, digits).unwrap_or(Vec::new(alloc))
}

/// Writes a text.
pub(crate) fn show<R: Print>(rt: &R, text: &str) {
    let _ = print!(rt; "{text}");
}

/// Writes a number behind a blank.
pub(crate) fn show_number<R: Print>(rt: &R, number: u64) {
    let _ = print!(rt; " {number}");
}

/// Writes two numbers behind a blank.
pub(crate) fn show_pair<R: Print>(rt: &R, first: u32, second: u64) {
    let _ = print!(rt; " {first}:{second}");
}

/// Writes a line behind a bar.
pub(crate) fn show_line<R: Print>(rt: &R, text: &str) {
    let _ = print!(rt; " |{text}");
}

/// Writes what is said of a fault.
pub(crate) fn show_fault<R: Print, F: Display>(rt: &R, fault: &F) {
    let _ = print!(rt; " | {fault}");
}

/// Writes a byte as two digits.
fn show_byte<R: Print>(rt: &R, byte: u8) {
    let _ = print!(rt; "{byte:02x}");
}

/// Writes bytes.
pub(crate) fn show_bytes<R: Print>(rt: &R, bytes: &[u8]) {
    show(rt, " ");
    for byte in bytes {
        show_byte(rt, *byte);
    }
}
