//! Parts in millionths, their means, and counts of bins.
use crate::words::{numbers_of, pairs_of, show, show_number, show_pair, small_of, split};
use percent::{Mean, item, weighted};
use std::alloc::Global;
use std::io::Print;
use tally::Tally;

/// Writes the part of some covered bins of all, of which there are no fewer.
fn show_part<R: Print>(rt: &R, covered: u32, bins: u32) {
    if covered <= bins {
        show_number(rt, u64::from(item(covered, bins)));
    }
}

/// PAIRS: the part of the bins that are covered, as 1:3 for one of three.
pub(crate) fn parts<R: Print>(rt: &R, alloc: Global, row: &str) {
    for part in &pairs_of(alloc, row) {
        show_part(rt, part.0, part.1);
    }
}

/// PAIRS: the mean of values with their weights.
pub(crate) fn mean<R: Print>(rt: &R, alloc: Global, row: &str) {
    show_number(rt, u64::from(weighted(&pairs_of(alloc, row))));
}

/// Writes the means of no pair, of one and of two that are added one after another.
fn show_steps<R: Print>(rt: &R, first: (u32, u32), second: (u32, u32)) {
    let mut mean = Mean::new();
    show_number(rt, u64::from(mean.get()));
    mean.add(first.0, first.1);
    show_number(rt, u64::from(mean.get()));
    mean.add(second.0, second.1);
    show_number(rt, u64::from(mean.get()));
}

/// PAIRS: the means of none, of the first and of both of two.
pub(crate) fn steps<R: Print>(rt: &R, alloc: Global, row: &str) {
    if let [first, second] = pairs_of(alloc, row).as_slice() {
        show_steps(rt, *first, *second);
    }
}

/// The tally of the counts of so many bins, of no more than a thousand.
pub(crate) fn tally_of(alloc: Global, text: &str) -> Option<Tally> {
    let counts = numbers_of(alloc, text);
    if counts.len() > 1000 {
        return None;
    }
    Tally::of(alloc, &counts).ok()
}

/// Writes the rows of a tally, and the count of each bin that is asked for.
fn show_tally<R: Print>(rt: &R, tally: &Tally, bins: &str) {
    for row in tally.rows() {
        show_pair(rt, row.0, row.1);
    }
    show(rt, " |");
    for word in bins.split(',') {
        show_number(rt, tally.get(small_of(word)));
    }
}

/// COUNTS BINS: the counts above zero with their bins, and the count of each bin that is asked for.
pub(crate) fn tally<R: Print>(rt: &R, alloc: Global, row: &str) {
    let (counts, bins) = split(row, ' ');
    if let Some(tally) = tally_of(alloc, counts) {
        show_tally(rt, &tally, bins);
    }
}

/// Writes all counts.
fn show_counts<R: Print>(rt: &R, counts: &[u64]) {
    for count in counts {
        show_number(rt, *count);
    }
}

/// The counts 2, 0 and 5 added to 10, 20, 30 and 40, and those from bin 1 on added to 10 and 20.
pub(crate) fn added<R: Print>(rt: &R, alloc: Global) {
    let Ok(tally) = Tally::of(alloc, &[2, 0, 5]) else {
        return;
    };
    let mut counts = [10u64, 20, 30, 40];
    tally.add_into(&mut counts);
    show_counts(rt, &counts);
    let mut part = [10u64, 20];
    tally.add_part(1, &mut part);
    show_counts(rt, &part);
}
