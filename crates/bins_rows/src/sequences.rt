//! Sequences and their lists. An item is its ranges and its repetition, as `1:3,6*1:2`, `1>1:1` or `-=2:2`.
use crate::words::{ranges_of, show, show_count, show_fault, show_number, small_of, split};
use cov_base::{Int, ValueSet};
use cov_tree::List;
use std::alloc::Global;
use std::io::Print;
use trans_lists::{expand, expand_all};
use trans_seq::{Item, Repeat, Seq};

/// The repetition behind a sign.
fn repeat_of(sign: char, ends: &str) -> Repeat {
    let (low, high) = split(ends, ':');
    let (low, high) = (small_of(low), small_of(high));
    match sign {
        '*' => Repeat::Consec { low, high },
        '>' => Repeat::Goto { low, high },
        _ => Repeat::NonConsec { low, high },
    }
}

/// The ranges of an item, and its repetition.
fn parts_of(word: &str) -> (&str, Repeat) {
    for sign in ['*', '>', '='] {
        if let Some((ranges, ends)) = word.split_once(sign) {
            return (ranges, repeat_of(sign, ends));
        }
    }
    (word, Repeat::Once)
}

/// Adds the item that a word spells.
fn add_item(alloc: Global, items: &mut List<Item>, word: &str) {
    let (ranges, repeat) = parts_of(word);
    if let Ok(set) = ValueSet::from_ranges(alloc, &ranges_of(alloc, ranges)) {
        let _ = items.push(Item { set, repeat });
    }
}

/// The sequence that words spell.
pub(crate) fn seq_of(alloc: Global, text: &str) -> Seq {
    let mut items = List::new(alloc);
    for word in text.split_whitespace() {
        add_item(alloc, &mut items, word);
    }
    Seq { items }
}

/// Writes a list behind a `|`.
fn show_list<R: Print>(rt: &R, list: &[Int]) {
    show(rt, " |");
    for number in list {
        show_number(rt, number.get());
    }
}

/// Writes each list.
fn show_lists<R: Print>(rt: &R, lists: &[List<Int>]) {
    for list in lists {
        show_list(rt, list.as_slice());
    }
}

/// Writes how long each list is.
fn show_lengths<R: Print>(rt: &R, lists: &[List<Int>]) {
    for list in lists {
        show_number(rt, list.as_slice().len() as i128);
    }
}

/// Writes each list, how long each is, or how many there are.
fn show_listed<R: Print>(rt: &R, call: &str, lists: &[List<Int>]) {
    match call {
        "lists" => show_lists(rt, lists),
        "lengths" => show_lengths(rt, lists),
        _ => show_count(rt, lists.len()),
    }
}

/// Writes what is asked of the lists of a sequence.
fn show_expanded<R: Print>(rt: &R, alloc: Global, call: &str, seq: &Seq) {
    match expand(alloc, seq) {
        Ok(lists) => show_listed(rt, call, &lists),
        Err(fault) => show_fault(rt, &fault),
    }
}

/// SEQUENCE: its lists, how long each is, or how many there are.
pub(crate) fn lists<R: Print>(rt: &R, alloc: Global, call: &str, row: &str) {
    show_expanded(rt, alloc, call, &seq_of(alloc, row));
}

/// The sequences before, between and behind the `/`s.
fn seqs_of(alloc: Global, text: &str) -> Vec<Seq> {
    let mut seqs = Vec::new(alloc);
    for part in text.split('/') {
        let _ = seqs.push(seq_of(alloc, part));
    }
    seqs
}

/// SEQUENCE / SEQUENCE ..: how many lists they have together.
pub(crate) fn together<R: Print>(rt: &R, alloc: Global, row: &str) {
    match expand_all(alloc, &seqs_of(alloc, row)) {
        Ok(lists) => show_count(rt, lists.len()),
        Err(fault) => show_fault(rt, &fault),
    }
}

/// Writes whether a copy of a sequence is the same as another.
fn show_same<R: Print>(rt: &R, alloc: Global, seq: &Seq, other: &Seq) {
    if let Ok(copy) = seq.copy(alloc) {
        let is_same = copy.is_same(other);
        show(rt, if is_same { " same" } else { " other" });
    }
}

/// Writes whether a copy of each sequence is the same as the first.
fn show_all_same<R: Print>(rt: &R, alloc: Global, seqs: &[Seq]) {
    if let [first, ..] = seqs {
        for seq in seqs {
            show_same(rt, alloc, seq, first);
        }
    }
}

/// SEQUENCE / SEQUENCE ..: whether a copy of each is the same as the first.
pub(crate) fn same<R: Print>(rt: &R, alloc: Global, row: &str) {
    show_all_same(rt, alloc, &seqs_of(alloc, row));
}
