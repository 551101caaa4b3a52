//! How harmed journals are answered, counted.
ghost use Rattle.std.specs.Prelude.{◌<◌};

use crate::made::{are_items, opened};
use journal_file::OpenFault;
use std::alloc::Global;
use std::io::Print;

/// How often each answer was given.
#[derive(Clone, Copy)]
pub(crate) struct Answers {
    /// Opened with so many items, each as it was made.
    right: [u64; 5],
    /// Opened with another item.
    wrong: u64,
    /// Refused at a place as no journal, by the place: 0, the three gates, and the end.
    bad: [u64; 5],
    damaged: [u64; 5],
    other: u64,
    /// Anything else.
    more: u64,
}

/// No answer yet.
pub(crate) const NONE: Answers = Answers {
    right: [0; 5],
    wrong: 0,
    bad: [0; 5],
    damaged: [0; 5],
    other: 0,
    more: 0,
};

/// The number of a place: 0 for the first byte, and for each gate.
fn place_number(at: u64) -> usize
    ensures { result < 5 }
{
    match at {
        0 => 0,
        40 => 1,
        52 => 2,
        62 => 3,
        _ => 4,
    }
}

/// One more.
fn count(n: &mut u64) {
    *n = n.saturating_add(1);
}

/// Counts what these bytes are opened as, beside these sums.
pub(crate) fn ask(alloc: Global, answers: &mut Answers, bytes: &[u8], sums: &[u8]) {
    match opened(alloc, bytes, sums) {
        Ok(found) if !are_items(found.entries.as_slice()) => count(&mut answers.wrong),
        Ok(found) => count(&mut answers.right[found.entries.len().min(4)]),
        Err(OpenFault::BadJournal { at }) => count(&mut answers.bad[place_number(at)]),
        Err(OpenFault::Damaged { at }) => count(&mut answers.damaged[place_number(at)]),
        Err(OpenFault::OtherDesign { .. }) => count(&mut answers.other),
        Err(_) => count(&mut answers.more),
    }
}

/// Writes a count behind its word.
pub(crate) fn show<R: Print>(rt: &R, word: &str, n: u64) {
    let _ = print!(rt; " {word} {n}");
}

/// Writes five counts behind their word.
fn show_five<R: Print>(rt: &R, word: &str, counts: &[u64; 5]) {
    let _ = print!(rt; " {word}");
    for n in counts {
        let _ = print!(rt; " {n}");
    }
}

/// Writes how often each answer was given.
pub(crate) fn show_answers<R: Print>(rt: &R, answers: &Answers) {
    show_five(rt, "right", &answers.right);
    show(rt, "wrong", answers.wrong);
    show_five(rt, "bad", &answers.bad);
    show_five(rt, "damaged", &answers.damaged);
    show(rt, "other", answers.other);
    show(rt, "more", answers.more);
}
