//! Selections of products, in postfix words: `1:011` for the bins 1 and 2 of three at the axis 1; `not`, `and` and `or`.
use crate::words::{numbers_of, show, show_number, split};
use cov_tree::{Boxed, List};
use cross_select::{Select, count_products, selects};
use std::alloc::Global;
use std::io::Print;

/// Which bins are chosen.
fn chosen_of(alloc: Global, digits: &str) -> List<bool> {
    let mut chosen = List::new(alloc);
    for digit in digits.as_bytes() {
        let _ = chosen.push(*digit == b'1');
    }
    chosen
}

/// The chosen bins of an axis.
fn bins_of(alloc: Global, word: &str) -> Select {
    let (axis, digits) = split(word, ':');
    Select::Bins {
        axis: axis.parse().unwrap_or(0),
        chosen: chosen_of(alloc, digits),
    }
}

/// The last tree, in a box.
fn last(alloc: Global, built: &mut Vec<Select>) -> Option<Boxed<Select>> {
    Boxed::of(alloc, built.pop()?).ok()
}

/// What the last two trees both select, or either.
fn joined(alloc: Global, word: &str, built: &mut Vec<Select>) -> Option<Select> {
    let right = last(alloc, built)?;
    let left = last(alloc, built)?;
    Some(if word == "and" {
        Select::And(left, right)
    } else {
        Select::Or(left, right)
    })
}

/// The tree of one word and the trees before it.
fn grown(alloc: Global, word: &str, built: &mut Vec<Select>) -> Option<Select> {
    match word {
        "not" => Some(Select::Not(last(alloc, built)?)),
        "and" | "or" => joined(alloc, word, built),
        _ => Some(bins_of(alloc, word)),
    }
}

/// Puts the tree of a word in the place of those that it takes.
fn add_word(alloc: Global, word: &str, built: &mut Vec<Select>) {
    if let Some(next) = grown(alloc, word, built) {
        let _ = built.push(next);
    }
}

/// The tree of the words.
fn tree_of(alloc: Global, text: &str) -> Option<Select> {
    let mut built = Vec::new(alloc);
    for word in text.split_whitespace() {
        add_word(alloc, word, &mut built);
    }
    built.pop()
}

/// Writes whether each product is selected.
fn show_products<R: Print>(rt: &R, alloc: Global, select: &Select, words: &str) {
    for word in words.split_whitespace() {
        let is_selected = selects(select, &numbers_of(alloc, word));
        show(rt, if is_selected { " in" } else { " out" });
    }
}

/// TREE / PRODUCTS: whether each product is selected.
pub(crate) fn select<R: Print>(rt: &R, alloc: Global, row: &str) {
    let (tree, words) = split(row, '/');
    if let Some(select) = tree_of(alloc, tree) {
        show_products(rt, alloc, &select, words);
    }
}

/// SIZES: how many products points of so many bins have, or `none`.
pub(crate) fn products<R: Print>(rt: &R, alloc: Global, row: &str) {
    match count_products(&numbers_of(alloc, row)) {
        Some(count) => show_number(rt, i128::from(count)),
        None => show(rt, " none"),
    }
}
