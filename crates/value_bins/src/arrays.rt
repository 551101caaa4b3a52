//! Listed numbers spread over so many bins.
ghost use Rattle.std.specs.Prelude.{◌≡◌, ℕ, ◌<◌, ◌≤◌, ◌↔◌, ◌++◌, take, drop, reverse, Err, IfOk, OnOk};
ghost use Rattle.cov_base.specs.Sets.{set_of, written};
ghost use Rattle.cov_ground.specs.Limits.{most_bins};
ghost use Rattle.value_bins.specs.Listed.{spread_sets, HaveTogether};

use crate::ranges::count_of;
use crate::{Elems, SpreadFault};
use cov_base::{Int, Memory, ValueSet, size_of};
use cov_ground::limits::MOST_BINS;
use std::alloc::Global;

/// Takes the first `count` numbers, or all where there are fewer, off the ranges in `rest`, of which the first stands
/// last, and adds them to `bin`.
fn take_numbers(
    rest: &mut Vec<(Int, Int)>,
    count: u128,
    bin: &mut Vec<(Int, Int)>,
) -> Result<(), Memory>
    ensures taken { OnOk result (written bin.new.items
        ≡ written bin.old.items ++ take count (written (reverse rest.old.items))) }
    ensures left { OnOk result
        (written (reverse rest.new.items) ≡ drop count (written (reverse rest.old.items))) }
{
    let mut missing = count;
    while missing > 0 {
        let Some(range) = rest.pop() else {
            return Ok(());
        };
        let size = size_of(range.0, range.1);
        if missing < size {
            rest.push((range.0.plus(missing), range.1))?;
            bin.push((range.0, range.0.plus(missing - 1)))?;
            return Ok(());
        }
        bin.push(range)?;
        missing -= size;
    }
    Ok(())
}

/// The set of the first `count` numbers of the ranges in `rest`, of which the first stands last; they are taken off.
fn next_set(alloc: Global, rest: &mut Vec<(Int, Int)>, count: u128) -> Result<ValueSet, Memory>
    ensures set { IfOk result (λ set. set ≡ set_of (take count (written (reverse rest.old.items)))) }
    ensures left { OnOk result
        (written (reverse rest.new.items) ≡ drop count (written (reverse rest.old.items))) }
{
    let mut bin = Vec::new(alloc);
    take_numbers(rest, count, &mut bin)?;
    ValueSet::from_ranges(alloc, bin.as_slice())
}

/// The ranges with the first one last.
fn reversed(alloc: Global, ranges: &[(Int, Int)]) -> Result<Vec<(Int, Int)>, Memory>
    ensures { IfOk result (λ rest. reverse rest.items ≡ ranges.now) }
{
    let mut rest = Vec::from_slice(alloc, ranges)?;
    rest.as_mut_slice().reverse();
    Ok(rest)
}

/// The sets of n bins.
fn sets_of(alloc: Global, ranges: &[(Int, Int)], n: u32) -> Result<Vec<ValueSet>, Memory>
    requires { 0 < n }
    ensures { IfOk result (λ sets. sets.items ≡ spread_sets ranges.now n) }
{
    let total = count_of(ranges);
    let share = (total / n as u128).max(1);
    let mut rest = reversed(alloc, ranges)?;
    let mut sets = Vec::new(alloc);
    for bin in 0..n - 1 {
        let set = next_set(alloc, &mut rest, share)?;
        sets.push(set)?;
    }
    let set = next_set(alloc, &mut rest, total)?;
    sets.push(set)?;
    Ok(sets)
}

/// The sets of the bins `b[n]` (IEEE 1800-2017, 19.5.1): the listed numbers in order, duplicates counted, spread over
/// n bins, 1 to 65,536. Each bin has the number of listed numbers divided by n, and the last one those that are left
/// over too; where fewer numbers than n are listed, the first bins have one each, and the others none. The numbers are
/// never written out.
pub fn spread(alloc: Global, elems: &Elems, n: u32) -> Result<Vec<ValueSet>, SpreadFault>
    ensures sets { IfOk result (λ sets. sets.items ≡ spread_sets elems.now n) }
    ensures together { IfOk result (λ sets. HaveTogether sets.items (written elems.now)) }
    ensures some { OnOk result (0 < n) }
    ensures most { OnOk result (n ≤ most_bins) }
    ensures zero { (result ≡ Err SpreadFault.ZeroBins) ↔ (n ≡ 0) }
    ensures too_many { (count : ℕ)
        → (result ≡ Err (SpreadFault.TooManyBins count)) ↔ ((most_bins < n) × (count ≡ n)) }
{
    if n == 0 {
        return Err(SpreadFault::ZeroBins);
    }
    if n as usize > MOST_BINS {
        return Err(SpreadFault::TooManyBins { count: n as u64 });
    }
    let sets = sets_of(alloc, elems.as_slice(), n)?;
    Ok(sets)
}
