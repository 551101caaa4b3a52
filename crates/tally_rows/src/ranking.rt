//! Rankings.
ghost use Rattle.std.specs.Prelude.{◌<◌, All};

use crate::counts::tally_of;
use crate::words::{pairs_of, show_line, show_pair, split};
use cov_tree::Name;
use rank_report::{rank, rank_lines};
use std::alloc::Global;
use std::io::Print;
use std::sync::Arc;
use std::thread::Threads;
use tally::{Ranked, Tally};

/// Adds the test of some counts.
fn add_test(alloc: Global, tests: &mut Vec<Arc<Tally>>, text: &str) {
    if let Some(tally) = tally_of(alloc, text)
        && let Ok(test) = Arc::new(alloc, tally)
    {
        let _ = tests.push(test);
    }
}

/// The tests of the counts before, between and behind the `/`s.
fn tests_of(alloc: Global, text: &str) -> Vec<Arc<Tally>> {
    let mut tests = Vec::new(alloc);
    for part in text.split('/') {
        add_test(alloc, &mut tests, part);
    }
    tests
}

/// Writes each test that is ranked, with its gain.
fn show_ranked<R: Print>(rt: &R, ranked: &[Ranked]) {
    for row in ranked {
        show_pair(rt, row.test, row.gain);
    }
}

/// Writes the ranking of no more than a thousand tests by no more than a thousand wanted hits.
fn show_ranking<R: Threads + Sync + Print>(
    rt: &R,
    alloc: Global,
    tests: &[Arc<Tally>],
    wanted: &[(u32, u32)],
) {
    if tests.len() <= 1000
        && wanted.len() <= 1000
        && let Ok(ranked) = rank(rt, alloc, tests, wanted)
    {
        show_ranked(rt, ranked.as_slice());
    }
}

/// WANTED COUNTS/COUNTS..: the ranking of tests of these counts by the wanted hits, pairs of a bin and how many.
pub(crate) fn ranking<R: Threads + Sync + Print>(rt: &R, alloc: Global, row: &str) {
    let (wanted, counts) = split(row, ' ');
    show_ranking(
        rt,
        alloc,
        &tests_of(alloc, counts),
        &pairs_of(alloc, wanted),
    );
}

/// Writes each line of a text.
fn show_text<R: Print>(rt: &R, text: &[u8]) {
    for line in str::from_utf8(text).unwrap_or("").split('\n') {
        show_line(rt, line);
    }
}

/// Writes the lines of a ranking of two tests.
fn show_lines<R: Print>(rt: &R, alloc: Global, ranked: &[Ranked], ids: &[Name; 2])
    requires { All (λ row. row.test < 2) ranked.now }
{
    if let Ok(text) = rank_lines(alloc, ranked, ids) {
        show_text(rt, &text);
    }
}

/// Writes the lines of the second test with a gain of 10 and the first with one of 1, and those of no test.
fn show_two<R: Print>(rt: &R, alloc: Global, ids: &[Name; 2]) {
    let ranked = [Ranked { test: 1, gain: 10 }, Ranked { test: 0, gain: 1 }];
    show_lines(rt, alloc, &ranked, ids);
    show_lines(rt, alloc, &[], ids);
}

/// FIRST SECOND: the lines of two tests of these names.
pub(crate) fn lines<R: Print>(rt: &R, alloc: Global, row: &str) {
    let (first, second) = split(row, ' ');
    if let Ok(first) = Name::of(alloc, first.as_bytes())
        && let Ok(second) = Name::of(alloc, second.as_bytes())
    {
        show_two(rt, alloc, &[first, second]);
    }
}
