//! The greedy ranking.
//!
//! A gain never grows as tests are taken, so that the gains which were computed before stand above those of now. Where
//! the greatest of them is still the gain of its test, that test is the best one, and no other is computed.
ghost use Rattle.std.specs.Prelude.{◌≡◌, ◌<◌, ◌^◌, length, map, IfOk, OnOk};
ghost use Rattle.std.specs.Arc.{arc_value};
ghost use Rattle.rank_report.specs.Ranking.{IsRanking};
ghost use Rattle.rank_report.specs.Steps.{hits_from, added_by, IsBest, StandAbove, AreFresh, AscendByBin};

use crate::hits::Hits;
use cov_ground::Memory;
use cov_tree::List;
use rayon::prelude::*;
use std::alloc::{AllocError, Global};
use std::sync::Arc;
use std::thread::Threads;
use tally::{Ranked, Tally};

/// Where more than one of so many tests is to be computed anew, all are, shared among the processors.
const FEW: usize = 4;

/// The greedy ranking of the tests. `wanted` has pairs of a bin and of how many hits of it are wanted. The test that
/// raises the wanted hits of those taken most is taken next, the earliest among equals, until none that is left
/// raises them.
pub fn rank<R: Threads + Sync>(
    rt: &R,
    alloc: Global,
    tests: &[Arc<Tally>],
    wanted: &[(u32, u32)],
) -> Result<List<Ranked>, Memory>
    requires tests { length tests.now < 2 ^ 32 }
    requires wanted { length wanted.now < 2 ^ 32 }
    ensures { IfOk result (λ ranked. IsRanking (map arc_value tests.now) wanted.now ranked) }
{
    let mut sorted = Vec::from_slice(alloc, wanted)?;
    sorted.sort_unstable_by_key(|pair| pair.0);
    rank_sorted(rt, alloc, tests, sorted.as_slice())
}

/// The greedy ranking, where the wanted pairs ascend by their bins.
fn rank_sorted<R: Threads + Sync>(
    rt: &R,
    alloc: Global,
    tests: &[Arc<Tally>],
    wanted: &[(u32, u32)],
) -> Result<List<Ranked>, Memory>
    requires tests { length tests.now < 2 ^ 32 }
    requires wanted { length wanted.now < 2 ^ 32 }
    requires ascend { AscendByBin wanted.now }
    ensures { IfOk result (λ ranked. IsRanking (map arc_value tests.now) wanted.now ranked) }
{
    let hits = hits_of(rt, alloc, tests, wanted)?;
    let mut missing = Vec::from_slice(alloc, wanted)?;
    let mut gains = gains_of(rt, alloc, &hits, &missing)?;
    let mut taken = vec![in alloc; false; tests.len()]?;
    let mut ranked = Vec::new(alloc);
    'rows: while let Some(next) = next_of(rt, alloc, &hits, &taken, &missing, &mut gains)? {
        ranked.push(next)?;
        let test = next.test as usize;
        taken[test] = true;
        hits[test].fill(&mut missing);
    }
    Ok(List::of(ranked))
}

/// The hits of each test. The tests are shared among the processors.
fn hits_of<R: Threads + Sync>(
    rt: &R,
    alloc: Global,
    tests: &[Arc<Tally>],
    wanted: &[(u32, u32)],
) -> Result<Vec<Hits>, Memory>
    requires few { length wanted.now < 2 ^ 32 }
    requires ascend { AscendByBin wanted.now }
    ensures { IfOk result (λ hits. hits.items ≡ map (λ test. hits_from 0 (arc_value test) wanted.now) tests.now) }
{
    let hits: Result<Result<Vec<Hits>, Memory>, AllocError> = tests
        .par_iter()
        .map(
            |test: &Arc<Tally>| -> Result<Hits, Memory>
                requires { (length wanted.now < 2 ^ 32) × AscendByBin wanted.now }
                ensures { IfOk result (λ hits. hits ≡ hits_from 0 (arc_value test.now) wanted.entry.now) }
            { Hits::of(alloc, test, wanted) },
        )
        .with_min_len(1)
        .collect(rt, alloc);
    hits?
}

/// The best of the tests that aren't taken. `gains` has numbers that stand above the gains of the tests, and still does
/// afterwards.
fn next_of<R: Threads + Sync>(
    rt: &R,
    alloc: Global,
    hits: &[Hits],
    taken: &[bool],
    missing: &[(u32, u32)],
    gains: &mut [u64],
) -> Result<Option<Ranked>, Memory>
    requires tests { length hits.now < 2 ^ 32 }
    requires taken { length taken.now ≡ length hits.now }
    requires gains { length gains.old ≡ length hits.now }
    requires above { StandAbove (map (λ hits. added_by hits missing.now) hits.now) taken.now gains.old }
    ensures next { IfOk result (λ next. IsBest (map (λ hits. added_by hits missing.now) hits.now) taken.now next) }
    ensures above { OnOk result (StandAbove (map (λ hits. added_by hits missing.now) hits.now) taken.now gains.new) }
{
    let Some(first) = best(gains, taken) else {
        return Ok(None);
    };
    let gain = hits[first.test as usize].gain(missing);
    if gain == first.gain {
        return Ok(Some(first));
    }
    refresh(rt, alloc, hits, taken, missing, gain, gains)?;
    Ok(best(gains, taken))
}

/// Computes the gains anew that stand at `floor` or above it.
fn refresh<R: Threads + Sync>(
    rt: &R,
    alloc: Global,
    hits: &[Hits],
    taken: &[bool],
    missing: &[(u32, u32)],
    floor: u64,
    gains: &mut [u64],
) -> Result<(), Memory>
    requires taken { length taken.now ≡ length hits.now }
    requires gains { length gains.old ≡ length hits.now }
    requires above { StandAbove (map (λ hits. added_by hits missing.now) hits.now) taken.now gains.old }
    ensures above { OnOk result (StandAbove (map (λ hits. added_by hits missing.now) hits.now) taken.now gains.new) }
    ensures fresh { OnOk result (AreFresh (map (λ hits. added_by hits missing.now) hits.now) taken.now floor gains.new) }
{
    if count_stale(taken, floor, gains) > hits.len() / FEW {
        let fresh = gains_of(rt, alloc, hits, missing)?;
        gains.copy_from_slice(&fresh);
    } else {
        refresh_few(hits, taken, missing, floor, gains);
    }
    Ok(())
}

/// How many gains stand at `floor` or above it, of the tests that aren't taken.
fn count_stale(taken: &[bool], floor: u64, gains: &[u64]) -> usize {
    let open = gains
        .iter()
        .zip(taken)
        .filter(|(gain, taken)| !**taken && **gain >= floor);
    open.count()
}

/// `refresh` in one thread.
fn refresh_few(hits: &[Hits], taken: &[bool], missing: &[(u32, u32)], floor: u64, gains: &mut [u64])
    requires taken { length taken.now ≡ length hits.now }
    requires gains { length gains.old ≡ length hits.now }
    requires above { StandAbove (map (λ hits. added_by hits missing.now) hits.now) taken.now gains.old }
    ensures above { StandAbove (map (λ hits. added_by hits missing.now) hits.now) taken.now gains.new }
    ensures fresh { AreFresh (map (λ hits. added_by hits missing.now) hits.now) taken.now floor gains.new }
{
    for (index, hits) in hits.iter().enumerate() {
        if !taken[index] && gains[index] >= floor {
            gains[index] = hits.gain(missing);
        }
    }
}

/// How many of the missing hits each test has. The tests are shared among the processors.
fn gains_of<R: Threads + Sync>(
    rt: &R,
    alloc: Global,
    hits: &[Hits],
    missing: &[(u32, u32)],
) -> Result<Vec<u64>, Memory>
    ensures { IfOk result (λ gains. gains.items ≡ map (λ hits. added_by hits missing.now) hits.now) }
{
    let gains: Result<Vec<u64>, AllocError> = hits
        .par_iter()
        .map(
            |hits: &Hits| -> u64
                ensures { result ≡ added_by hits.now missing.entry.now }
            { hits.gain(missing) },
        )
        .with_min_len(1)
        .collect(rt, alloc);
    Ok(gains?)
}

/// The index of the greatest gain of a test that isn't taken, the first among equals; none where no such test gains.
fn best(gains: &[u64], taken: &[bool]) -> Option<Ranked>
    requires same { length taken.now ≡ length gains.now }
    requires few { length gains.now < 2 ^ 32 }
    ensures { IsBest gains.now taken.now result }
{
    let mut best = Ranked { test: 0, gain: 0 };
    for (index, gain) in gains.iter().enumerate() {
        if !taken[index] && *gain > best.gain {
            best = Ranked {
                test: index as u32,
                gain: *gain,
            };
        }
    }
    if best.gain == 0 {
        return None;
    }
    Some(best)
}
