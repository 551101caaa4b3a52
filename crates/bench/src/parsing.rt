//! A design text of a file: `parsing FILE LEXES PARSES` lexes the file and parses its tokens that many times, and prints
//! how many tokens and how many declarations it has.

use bench_values::{Found, bytes_at, number_at};
use cov_lexer::lex;
use cov_parser::{ParseFault, parse};
use cov_tree::DesignText;
use std::alloc::Global;
use std::rt::Files;

/// The most bytes of a design text.
const MOST: usize = 1_048_576;

/// The counts of so many tokens with their tree.
fn counts_of(tokens: usize, tree: Result<DesignText, ParseFault>) -> Option<Found> {
    match tree {
        Ok(tree) => Some(Found::Tree(tokens as u64, tree.decls.as_slice().len() as u64)),
        Err(_) => None,
    }
}

/// The counts of a text that is lexed and parsed so many times, once at least; None where it has no tree, or is too long.
fn counted(alloc: Global, text: &[u8], lexes: u32, parses: u32) -> Option<Found> {
    if text.len() > MOST {
        return None;
    }
    let mut done = true;
    for _ in 1..lexes {
        done &= lex(alloc, text).is_ok();
    }
    let Ok(tokens) = lex(alloc, text) else {
        return None;
    };
    let mut found = None;
    for _ in 0..parses.max(1) {
        found = counts_of(tokens.len(), parse(alloc, text, &tokens));
    }
    if done { found } else { None }
}

pub(crate) fn measured<R: Files + AllocGlobal>(rt: &R, words: &[String]) -> Option<Found> {
    if let Some(lexes) = number_at(words, 1)
        && let Some(parses) = number_at(words, 2)
        && let Some(text) = bytes_at(rt, words, 0)
    {
        counted(rt.alloc(), &text, lexes, parses)
    } else {
        None
    }
}
