//! Names with what they stand for: each name of a list stands for its place there, counted from 0.
use crate::words::{show, show_count, show_number, split};
use cov_tree::Name;
use name_map::NameMap;
use std::alloc::Global;
use std::io::Print;

/// The place that a name stands for, -1 where it isn't there.
fn place_of(names: &NameMap<usize>, word: &str) -> i128 {
    match names.get(word.as_bytes()) {
        Some(place) => *place as i128,
        None => -1,
    }
}

/// Writes what each name stands for, and how many names there are.
fn show_names<R: Print>(rt: &R, names: &NameMap<usize>, asked: &str) {
    for word in asked.split(',') {
        show_number(rt, place_of(names, word));
    }
    show_count(rt, names.len());
}

/// Declares a name, and writes whether it is new.
fn declare<R: Print>(rt: &R, names: &mut NameMap<usize>, name: Name, place: usize) {
    if let Ok(is_new) = names.declare(name, place) {
        show(rt, if is_new { " new" } else { " old" });
    }
}

/// Declares the names that are listed one by one, and writes what those that are asked for stand for, before and after
/// all are cleared.
fn declare_all<R: Print>(
    rt: &R,
    names: &mut NameMap<usize>,
    pairs: Vec<(Name, usize)>,
    asked: &str,
) {
    for (name, place) in pairs {
        declare(rt, names, name, place);
    }
    show_names(rt, names, asked);
    names.clear();
    show_names(rt, names, asked);
}

/// Adds a name with its place.
fn add_pair(alloc: Global, pairs: &mut Vec<(Name, usize)>, word: &str) {
    if let Ok(name) = Name::of(alloc, word.as_bytes()) {
        let _ = pairs.push((name, pairs.len()));
    }
}

/// The names with their places.
fn pairs_of(alloc: Global, listed: &str) -> Vec<(Name, usize)> {
    let mut pairs = Vec::new(alloc);
    for word in listed.split(',') {
        add_pair(alloc, &mut pairs, word);
    }
    pairs
}

/// NAMES ASKED: names declared one by one.
pub(crate) fn names<R: Print>(rt: &R, alloc: Global, row: &str) {
    let (listed, asked) = split(row, ' ');
    declare_all(rt, &mut NameMap::new(alloc), pairs_of(alloc, listed), asked);
}

/// NAMES ASKED: names declared together.
pub(crate) fn map<R: Print>(rt: &R, alloc: Global, row: &str) {
    let (listed, asked) = split(row, ' ');
    if let Ok(names) = NameMap::of(alloc, pairs_of(alloc, listed)) {
        show_names(rt, &names, asked);
    }
}
