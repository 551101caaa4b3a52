//! The words of a line, and what is written for it. What can't be read counts as 0, and what can't be kept or written is
//! missing: the rows then aren't as `stdout` has them.
use std::io::Print;

/// A word and what follows it.
pub fn split(words: &str) -> (&str, &str) {
    words.split_once(' ').unwrap_or((words, ""))
}

/// The number that a word spells.
pub fn number_of(word: &str) -> u64 {
    word.parse().unwrap_or(0)
}

/// The small number that a word spells.
pub fn small_of(word: &str) -> u32 {
    word.parse().unwrap_or(0)
}

/// Puts a word behind a text.
pub fn put(text: &mut String, word: &str) {
    let _ = text.push_str(word);
}

/// Writes a line.
pub fn say<R: Print>(rt: &R, line: &str) {
    let _ = println!(rt; "{line}");
}

/// Writes a line of a number.
pub fn say_number<R: Print>(rt: &R, number: u64) {
    let _ = println!(rt; "{number}");
}

/// Writes a line of how many there are of what a word names.
pub fn say_count<R: Print>(rt: &R, count: u32, what: &str) {
    let _ = println!(rt; "{count} {what}");
}
