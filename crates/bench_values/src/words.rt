//! The words of a measurement, and the files that they name.
use std::fs;
use std::rt::Files;

/// The word at a place, or nothing where there is none.
pub fn text_at(words: &[String], place: usize) -> &str {
    match words.get(place) {
        Some(word) => word.as_str(),
        None => "",
    }
}

/// The number at a place.
pub fn number_at(words: &[String], place: usize) -> Option<u32> {
    text_at(words, place).parse().ok()
}

/// What the file at a place has; None where it can't be read.
pub fn bytes_at<R: Files + AllocGlobal>(rt: &R, words: &[String], place: usize) -> Option<Vec<u8>> {
    fs::read(rt, text_at(words, place)).ok()
}

/// The number at a place, where it has 16 bits.
pub fn short_at(words: &[String], place: usize) -> Option<u16> {
    text_at(words, place).parse().ok()
}
