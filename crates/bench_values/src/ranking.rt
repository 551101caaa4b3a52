//! Rankings of made-up tests: `ranking TESTS ENTRIES SPAN WANT ROUNDS` makes so many tests with so many entries each, one
//! in each SPAN bins, ranks them so many times where WANT hits of each bin are wanted, and prints how many tests the
//! ranking has and a sum of its rows.

use crate::answers::Found;
use crate::random::after;
use crate::words::{number_at, short_at};
use rank_report::rank;
use std::alloc::Global;
use std::sync::Arc;
use std::thread::Threads;
use tally::{Ranked, Tally};

/// What is ranked.
#[derive(Clone, Copy)]
struct Plan {
    tests: u16,
    entries: u16,
    span: u16,
    want: u32,
}

impl Plan {
    /// How many bins there are.
    fn bins(self) -> u32 {
        u32::from(self.entries) * u32::from(self.span)
    }
}

/// Counts one test, from 1 to 4 where it has an entry: the number that comes next.
fn count(counts: &mut [u64], plan: Plan, first: u64) -> u64 {
    let mut number = first;
    for entry in 0..plan.entries {
        number = after(number);
        let offset = (number >> 33) % u64::from(plan.span.max(1));
        let bin = usize::from(entry) * usize::from(plan.span) + offset as usize;
        if bin < counts.len() {
            counts[bin] = 1 + (number >> 62);
        }
    }
    number
}

/// Adds a test of these counts.
fn add_tally(alloc: Global, tests: &mut Vec<Arc<Tally>>, counts: &[u64]) {
    if counts.len() <= 4_294_967_295
        && let Ok(tally) = Tally::of(alloc, counts)
        && let Ok(test) = Arc::new(alloc, tally)
    {
        let _ = tests.push(test);
    }
}

/// Adds a test, made from this number: the number that comes next.
fn add_test(alloc: Global, tests: &mut Vec<Arc<Tally>>, plan: Plan, first: u64) -> u64 {
    match vec![in alloc; 0u64; plan.bins() as usize] {
        Ok(mut counts) => {
            let next = count(&mut counts, plan, first);
            add_tally(alloc, tests, &counts);
            next
        }
        Err(_) => first,
    }
}

fn tests_of(alloc: Global, plan: Plan) -> Vec<Arc<Tally>> {
    let mut tests = Vec::new(alloc);
    let mut number = 1u64;
    for _ in 0..plan.tests {
        number = add_test(alloc, &mut tests, plan, number);
    }
    tests
}

fn wanted_of(alloc: Global, plan: Plan) -> Vec<(u32, u32)> {
    let mut wanted = Vec::new(alloc);
    for bin in 0..plan.bins() {
        let _ = wanted.push((bin, plan.want));
    }
    wanted
}

/// A sum of the rows in which their order counts.
fn sum_of(rows: &[Ranked]) -> u64 {
    let mut sum = 0u64;
    for row in rows {
        sum = after(sum ^ (u64::from(row.test) << 32 ^ row.gain));
    }
    sum
}

/// How many tests the ranking has, and the sum of its rows.
fn ranked<R: Threads + Sync>(
    rt: &R,
    alloc: Global,
    tests: &[Arc<Tally>],
    wanted: &[(u32, u32)],
) -> Option<Found> {
    if tests.len() > 65_535 {
        return None;
    }
    if wanted.len() > 4_294_967_295 {
        return None;
    }
    match rank(rt, alloc, tests, wanted) {
        Ok(rows) => Some(Found::Two(rows.as_slice().len() as u64, sum_of(rows.as_slice()))),
        Err(_) => None,
    }
}

/// The same, ranked so many times.
fn ranked_often<R: Threads + Sync>(
    rt: &R,
    alloc: Global,
    tests: &[Arc<Tally>],
    wanted: &[(u32, u32)],
    rounds: u32,
) -> Option<Found> {
    let mut found = Some(Found::Two(0, 0));
    for _ in 0..rounds {
        found = ranked(rt, alloc, tests, wanted);
    }
    found
}

/// The same, of the tests of a plan.
fn ranked_by<R: Threads + Sync>(rt: &R, alloc: Global, plan: Plan, rounds: u32) -> Option<Found> {
    let tests = tests_of(alloc, plan);
    let wanted = wanted_of(alloc, plan);
    if tests.len() == usize::from(plan.tests) && wanted.len() == plan.bins() as usize {
        ranked_often(rt, alloc, &tests, &wanted, rounds)
    } else {
        None
    }
}

/// The plan that the words name.
fn plan_of(words: &[String]) -> Option<Plan> {
    Some(Plan {
        tests: short_at(words, 0)?,
        entries: short_at(words, 1)?,
        span: short_at(words, 2)?,
        want: number_at(words, 3)?,
    })
}

/// Does the measurement of these words; None where they aren't right, something is refused, or memory ran out.
pub fn measured<R: Threads + Sync + AllocGlobal>(rt: &R, words: &[String]) -> Option<Found> {
    match (plan_of(words), number_at(words, 4)) {
        (Some(plan), Some(rounds)) => ranked_by(rt, rt.alloc(), plan, rounds),
        _ => None,
    }
}
