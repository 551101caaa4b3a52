//! Long histories, and questions that are asked often.
use crate::serving::{Told, admitted, served};
use crate::stores::Stores;
use ask_rows::{small_of, split};
use merge_store::Store;
use std::alloc::Global;
use std::thread::Threads;
use ucis_model::CoverRow;

fn is_new(told: &Option<Told>) -> bool {
    match told {
        Some(told) => told.text.as_str() == "new",
        None => false,
    }
}

/// To admit the record of a number with these steps.
fn line_of(alloc: Global, number: u32, steps: &str) -> String {
    format!(in alloc; "admit n{number} {steps}").unwrap_or(String::new(alloc))
}

/// Admits the record of a line: whether it is new.
fn admits<R: Threads + Sync>(rt: &R, alloc: Global, stores: &mut Stores, line: &str) -> bool {
    if stores.alone {
        return is_new(&served(rt, alloc, stores, line));
    }
    admitted(rt, alloc, stores, line)
}

/// Admits as many records as the first word says, each with the steps of the others: how many are new.
pub fn many<R: Threads + Sync>(rt: &R, alloc: Global, stores: &mut Stores, words: &str) -> u32 {
    let (many, steps) = split(words);
    let mut new = 0u32;
    for number in 0..small_of(many) {
        let line = line_of(alloc, number, steps);
        new = new.saturating_add(u32::from(admits(rt, alloc, stores, line.as_str())));
    }
    new
}

/// Whether the coverage of a path is this.
fn is_row(store: &Store, path: &[u8], row: &CoverRow) -> bool {
    match store.coverage(path) {
        Ok(other) => *row == other,
        Err(_) => false,
    }
}

/// Asks for the coverage of a path as often as the first word says: how many answers are as the first one.
pub fn again(store: &Store, words: &str) -> u32 {
    let (times, path) = split(words);
    let Ok(row) = store.coverage(path.as_bytes()) else {
        return 0;
    };
    let mut alike = 0u32;
    for _ in 0..small_of(times) {
        alike = alike.saturating_add(u32::from(is_row(store, path.as_bytes(), &row)));
    }
    alike
}
