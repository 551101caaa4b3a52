//! The words of a row, and what is written for it. What can't be read counts as 0 or as nothing, and what can't be kept or
//! written is missing: the rows then aren't as `stdout` has them.
ghost use Rattle.std.specs.Prelude.{◌<◌};

use covd_core::Status;
use std::alloc::Global;
use std::io::Print;
use std::mem;

/// The words before and behind the first blank.
pub fn split(row: &str) -> (&str, &str) {
    row.split_once(' ').unwrap_or((row, ""))
}

/// The number that a word spells.
pub(crate) fn number_of(word: &str) -> u64 {
    word.parse().unwrap_or(0)
}

/// How many a word says.
pub(crate) fn count_of(word: &str) -> u32 {
    word.parse().unwrap_or(0)
}

/// The most bytes of a piece, at least one.
pub(crate) fn piece_of(word: &str) -> usize
    ensures { 0 < result }
{
    let piece: usize = word.parse().unwrap_or(1);
    piece.max(1)
}

fn add_number(numbers: &mut Vec<u64>, word: &str) {
    if let Ok(number) = word.parse() {
        let _ = numbers.push(number);
    }
}

/// The numbers of a list; none at all where it is `-`.
pub(crate) fn numbers_of(alloc: Global, list: &str) -> Vec<u64> {
    let mut numbers = Vec::new(alloc);
    for word in list.split(',') {
        add_number(&mut numbers, word);
    }
    numbers
}

/// The bytes that a word spells in hexadecimal.
pub(crate) fn bytes_of(alloc: Global, digits: &str) -> Vec<u8> {
    hex::decode(alloc, digits).unwrap_or(Vec::new(alloc))
}

/// The same bytes.
pub(crate) fn copy_of(alloc: Global, bytes: &[u8]) -> Vec<u8> {
    Vec::from_slice(alloc, bytes).unwrap_or(Vec::new(alloc))
}

/// The bytes, none of which stay there.
pub(crate) fn take(alloc: Global, bytes: &mut Vec<u8>) -> Vec<u8> {
    mem::replace(bytes, Vec::new(alloc))
}

/// A copy of a text.
pub(crate) fn text_of(alloc: Global, text: &str) -> String {
    String::from_str(alloc, text).unwrap_or(String::new(alloc))
}

/// The words of a command.
pub(crate) fn words_of(alloc: Global, row: &str) -> Vec<String> {
    let mut words = Vec::new(alloc);
    for word in row.split_whitespace() {
        let _ = words.push(text_of(alloc, word));
    }
    words
}

/// Writes a line.
pub fn say<R: Print>(rt: &R, line: &str) {
    let _ = println!(rt; "{line}");
}

/// Writes a line of two words.
pub(crate) fn show<R: Print>(rt: &R, what: &str, word: &str) {
    let _ = println!(rt; "{what} {word}");
}

/// Writes a line of a word and a number.
pub(crate) fn show_number<R: Print>(rt: &R, what: &str, number: u64) {
    let _ = println!(rt; "{what} {number}");
}

/// Writes the status of a command.
pub(crate) fn show_status<R: Print>(rt: &R, status: Status) {
    show_number(rt, "status", u64::from(status.number()));
}
