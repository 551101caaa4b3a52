//! Numbers that tell much of what values are made of, to look for what was met before. Unlike values may have one mark:
//! what is found at it is tested before it is believed.

use crate::alone::only_number;
use cov_base::{Int, ValueSet};
use trans_seq::{Item, Repeat};

/// An odd number whose digits have no order, so that no number of values is lost in a mark.
const FACTOR: i128 = 0x2360_ed05_1fc6_5da4_4385_df64_9fcc_f645;

/// The mark of what has this mark and of one more number.
pub fn with_number(mark: i128, number: i128) -> i128 {
    mark.wrapping_add(number).wrapping_mul(FACTOR)
}

/// The mark of what has this mark and of the numbers behind it.
pub fn with_numbers(mark: i128, numbers: &[Int]) -> i128 {
    let mut mark = mark;
    for number in numbers {
        mark = with_number(mark, number.get());
    }
    mark
}

fn with_repeat(mark: i128, repeat: Repeat) -> i128 {
    let (word, low, high) = match repeat {
        Repeat::Once => (0, 1, 1),
        Repeat::Consec { low, high } => (1, low, high),
        Repeat::Goto { low, high } => (2, low, high),
        Repeat::NonConsec { low, high } => (3, low, high),
    };
    with_number(
        with_number(with_number(mark, word), i128::from(low)),
        i128::from(high),
    )
}

fn with_set(mark: i128, set: &ValueSet) -> i128 {
    let mut mark = mark;
    for range in set.intervals() {
        mark = with_number(with_number(mark, range.0.get()), range.1.get());
    }
    mark
}

/// The mark of the items' values and repetitions, behind what has this mark.
pub fn with_items(mark: i128, items: &[Item]) -> i128 {
    let mut mark = mark;
    for item in items {
        mark = with_set(with_repeat(mark, item.repeat), &item.set);
    }
    mark
}

/// The mark of the number of each set that has one alone, at its place behind what has this mark.
pub fn with_only_numbers(mark: i128, items: &[Item]) -> i128 {
    let mut mark = mark;
    for item in items {
        mark = match only_number(&item.set) {
            Some(number) => with_number(mark, number.get()),
            None => with_number(mark, i128::MAX),
        };
    }
    mark
}
