//! The hits of the wanted bins that a test has.
ghost use Rattle.std.specs.Prelude.{◌≡◌, ℕ, ◌+◌, ◌<◌, ◌≤◌, ◌^◌, ◌∷◌, ◌++◌, drop, length, IfOk};
ghost use Rattle.tally.specs.Rows.{IsAscendingFrom};
ghost use Rattle.rank_report.specs.Ranking.{Test};
ghost use Rattle.rank_report.specs.Steps.{hits_from, added_by, less_by, lacking, bin_at, AscendByBin};

use cov_ground::Memory;
use std::alloc::Global;
use std::marker::Model;
use tally::Tally;

/// Of each wanted pair that a test hits, in order, its index and how many of its wanted hits the test has.
#[derive(Drop)]
pub(crate) struct Hits {
    pairs: Vec<(u32, u32)>,
}

impl Model for Hits {
    ghost use Rattle.std.specs.Prelude.{ℕ, List, ◌<◌, ◌^◌, length};

    ghost Value = { List (ℕ × ℕ) };

    ghost view = { λ hits. hits.pairs.items };

    ghost invariant = { λ hits. length hits.pairs.items < 2 ^ 32 };
}

impl Hits {
    /// The hits of the test, where the wanted pairs ascend by their bins. It takes time in the rows of the test, in the
    /// pairs of their bins, and, for each row, in the logarithm of the number of pairs at most.
    pub(crate) fn of(alloc: Global, test: &Tally, wanted: &[(u32, u32)]) -> Result<Hits, Memory>
        requires few { length wanted.now < 2 ^ 32 }
        requires ascend { AscendByBin wanted.now }
        ensures { IfOk result (λ hits. hits ≡ hits_from 0 test.now wanted.now) }
    {
        let mut pairs = Vec::new(alloc);
        let mut index = 0;
        for (bin, count) in test.rows() {
            let first = first_of(wanted, index, *bin);
            index = append_hits(&mut pairs, wanted, first, *bin, *count)?;
        }
        Ok(Hits { pairs })
    }

    /// How many of the missing hits the test has; `missing` has a pair for each wanted one.
    pub(crate) fn gain(&self, missing: &[(u32, u32)]) -> u64
        ensures { result ≡ added_by self.now missing.now }
    {
        gain_of(self.pairs.as_slice(), missing)
    }

    /// Takes the test's hits off the missing ones.
    pub(crate) fn fill(&self, missing: &mut [(u32, u32)])
        ensures { missing.new ≡ less_by self.now missing.old }
    {
        take_off(self.pairs.as_slice(), missing);
    }
}

/// The first index from `from` on whose pair's bin isn't below `bin`.
fn first_of(wanted: &[(u32, u32)], from: usize, bin: u32) -> usize
    requires ascend { AscendByBin wanted.now }
    requires from { from ≤ length wanted.now }
    ensures range { (from ≤ result) × (result ≤ length wanted.now) }
    ensures before { (k : ℕ) → from ≤ k → k < result → bin_at wanted.now k < bin }
    ensures after { (k : ℕ) → result ≤ k → k < length wanted.now → bin ≤ bin_at wanted.now k }
{
    if from == wanted.len() {
        return from;
    }
    if wanted[from].0 >= bin {
        return from;
    }
    wanted.partition_point(|pair| pair.0 < bin)
}

/// Appends the hits of a row, the pairs of whose bin begin at `first` if there are any, and answers the index behind
/// those pairs.
fn append_hits(
    hits: &mut Vec<(u32, u32)>,
    wanted: &[(u32, u32)],
    first: usize,
    bin: u32,
    count: u64,
) -> Result<usize, Memory>
    requires few { length wanted.now < 2 ^ 32 }
    requires ascend { AscendByBin wanted.now }
    requires first { first ≤ length wanted.now }
    requires after { (k : ℕ) → first ≤ k → k < length wanted.now → bin ≤ bin_at wanted.now k }
    requires short { length hits.old.items ≤ first }
    ensures range { IfOk result (λ behind. (first ≤ behind) × (behind ≤ length wanted.now)) }
    ensures short { IfOk result (λ behind. length hits.new.items ≤ behind) }
    ensures hits { IfOk result (λ behind. (rest : Test) → IsAscendingFrom (bin + 1) rest
        → hits.new.items ++ hits_from behind rest (drop behind wanted.now)
        ≡ hits.old.items ++ hits_from first ((bin, count) ∷ rest) (drop first wanted.now)) }
{
    for index in first..wanted.len() {
        let (wanted_bin, want) = wanted[index];
        if wanted_bin != bin {
            return Ok(index);
        }
        let common = u64::from(want).min(count) as u32;
        if common > 0 {
            hits.push((index as u32, common))?;
        }
    }
    Ok(wanted.len())
}

fn gain_of(pairs: &[(u32, u32)], missing: &[(u32, u32)]) -> u64
    requires { length pairs.now < 2 ^ 32 }
    ensures { result ≡ added_by pairs.now missing.now }
{
    let mut gain = 0u64;
    for (index, hits) in pairs {
        gain += u64::from(missing_at(missing, *index).min(*hits));
    }
    gain
}

fn missing_at(missing: &[(u32, u32)], index: u32) -> u32
    ensures { result ≡ lacking missing.now index }
{
    match missing.get(index as usize) {
        Some(pair) => pair.1,
        None => 0,
    }
}

fn take_off(pairs: &[(u32, u32)], missing: &mut [(u32, u32)])
    ensures { missing.new ≡ less_by pairs.now missing.old }
{
    for (index, hits) in pairs {
        let index = *index as usize;
        if index < missing.len() {
            let (bin, lacks) = missing[index];
            missing[index] = (bin, lacks.saturating_sub(*hits));
        }
    }
}
