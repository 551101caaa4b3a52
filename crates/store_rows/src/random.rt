//! Random asks, put alike to a store and to a plain one.
use crate::serving::{Told, late, served};
use crate::stores::Stores;
use ask_rows::{Dice, Paths, number_of, put, random_line, random_text, small_of, split};
use std::alloc::Global;
use std::thread::Threads;

/// Asks of a round, which are put over one history.
const ROUND: u32 = 100;

impl Paths for Stores {
    fn many(&self) -> usize {
        self.store.nodes().len()
    }

    fn write(&self, place: u32, line: &mut String) {
        if place as usize >= self.store.nodes().len() {
            return;
        }
        if let Ok(path) = self.store.path_text(place) {
            put(line, str::from_utf8(path.as_slice()).unwrap_or(""));
        }
    }
}

fn is_alike(told: &Option<Told>) -> bool {
    match told {
        Some(told) => told.alike,
        None => false,
    }
}

/// Puts the asks of two lines to both stores, the first made ready before the second: whether they answer both alike.
fn are_late_alike<R: Threads + Sync>(
    rt: &R,
    alloc: Global,
    stores: &mut Stores,
    words: &str,
) -> bool {
    let (first, second) = words.split_once(" <- ").unwrap_or((words, ""));
    let (before, behind) = late(rt, alloc, stores, first, second);
    is_alike(&before) && is_alike(&behind)
}

/// Puts the asks of a line to both stores: whether they answer alike.
fn are_alike<R: Threads + Sync>(rt: &R, alloc: Global, stores: &mut Stores, line: &str) -> bool {
    match line.split_once(' ') {
        Some(("late", words)) => are_late_alike(rt, alloc, stores, words),
        _ => is_alike(&served(rt, alloc, stores, line)),
    }
}

/// Puts a random ask to both stores: whether they answer alike.
fn command<R: Threads + Sync>(rt: &R, alloc: Global, dice: &mut Dice, stores: &mut Stores) -> bool {
    let line = random_line(alloc, dice, stores);
    are_alike(rt, alloc, stores, line.as_str())
}

/// Puts a round of random asks to both stores: how many they answer otherwise.
fn asked<R: Threads + Sync>(rt: &R, alloc: Global, dice: &mut Dice, stores: &mut Stores) -> u32 {
    let mut otherwise = 0u32;
    for _ in 0..ROUND {
        let alike = command(rt, alloc, dice, stores);
        otherwise = otherwise.saturating_add(u32::from(!alike));
    }
    otherwise
}

/// Puts a round of random asks to both stores, over a history of their own: how many they answer otherwise.
fn round<R: Threads + Sync>(rt: &R, alloc: Global, dice: &mut Dice) -> u32 {
    match Stores::of(alloc, random_text(dice), false) {
        Some(mut stores) => asked(rt, alloc, dice, &mut stores),
        None => ROUND,
    }
}

/// Puts random asks to both stores, as many rounds as the first word says, by the row of numbers that the second begins:
/// how many they answer otherwise.
pub fn random<R: Threads + Sync>(rt: &R, alloc: Global, words: &str) -> u32 {
    let (rounds, seed) = split(words);
    let mut dice = Dice::new(number_of(seed));
    let mut otherwise = 0u32;
    for _ in 0..small_of(rounds) {
        otherwise = otherwise.saturating_add(round(rt, alloc, &mut dice));
    }
    otherwise
}
