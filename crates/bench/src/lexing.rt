//! Tokens of a file: `lexing FILE ROUNDS` lexes the file that many times, and prints how many tokens it has.

use bench_values::{Found, bytes_at, number_at};
use cov_lexer::lex;
use std::alloc::Global;
use std::rt::Files;

/// The most bytes that are lexed.
const MOST: usize = 1_048_576;

/// How many tokens a text has; None where it has none, or is too long.
fn lexed(alloc: Global, text: &[u8]) -> Option<Found> {
    if text.len() > MOST {
        return None;
    }
    match lex(alloc, text) {
        Ok(tokens) => Some(Found::One(tokens.len() as u64)),
        Err(_) => None,
    }
}

/// The same, lexed so many times.
fn lexed_often(alloc: Global, text: &[u8], rounds: u32) -> Option<Found> {
    let mut found = Some(Found::One(0));
    for _ in 0..rounds {
        found = lexed(alloc, text);
    }
    found
}

pub(crate) fn measured<R: Files + AllocGlobal>(rt: &R, words: &[String]) -> Option<Found> {
    if let Some(rounds) = number_at(words, 1)
        && let Some(text) = bytes_at(rt, words, 0)
    {
        lexed_often(rt.alloc(), &text, rounds)
    } else {
        None
    }
}
