//! One bin for each listed number.
ghost use Rattle.std.specs.Prelude.{◌≡◌, ◌≢◌, ℕ, ◌<◌, ◌≤◌, ◌-◌, ◌^◌, ◌++◌, length, min, Err, IfOk, OnOk};
ghost use Rattle.cov_base.specs.Sets.{ascending, written, span};
ghost use Rattle.cov_ground.specs.Limits.{most_bins};

use crate::{Elems, SpreadFault};
use cov_base::{Int, Memory, ValueSet, size_of};
use cov_ground::limits::MOST_BINS;
use std::alloc::Global;

/// Adds the numbers of a range.
fn add_numbers(numbers: &mut Vec<Int>, low: Int, high: Int) -> Result<(), Memory>
    ensures { OnOk result (numbers.new.items ≡ numbers.old.items ++ span (low, high)) }
{
    for offset in 0..size_of(low, high) {
        numbers.push(low.plus(offset))?;
    }
    Ok(())
}

/// The numbers of ranges, written out.
fn numbers_of(alloc: Global, ranges: &[(Int, Int)]) -> Result<Vec<Int>, Memory>
    ensures { IfOk result (λ numbers. numbers.items ≡ written ranges.now) }
{
    let mut numbers = Vec::new(alloc);
    for range in ranges {
        add_numbers(&mut numbers, range.0, range.1)?;
    }
    Ok(numbers)
}

/// The numbers of the bins `b[]` (IEEE 1800-2017, 19.5.1), one for each bin: the distinct listed numbers, ascending.
/// More than 65,536 are refused, with how many there are, at most 2^64 - 1.
pub fn singles(alloc: Global, elems: &Elems) -> Result<Vec<Int>, SpreadFault>
    ensures numbers { IfOk result (λ numbers. numbers.items ≡ ascending (written elems.now)) }
    ensures most { OnOk result (length (ascending (written elems.now)) ≤ most_bins) }
    ensures some { result ≢ Err SpreadFault.ZeroBins }
    ensures too_many { (count : ℕ) → result ≡ Err (SpreadFault.TooManyBins count)
        → let distinct = length (ascending (written elems.now)) in
        (most_bins < distinct) × (count ≡ min distinct (2 ^ 64 - 1)) }
{
    let set = ValueSet::from_ranges(alloc, elems.as_slice())?;
    let count = set.count();
    if count > MOST_BINS as u128 {
        return Err(SpreadFault::TooManyBins {
            count: count.min(u64::MAX as u128) as u64,
        });
    }
    let numbers = numbers_of(alloc, set.intervals())?;
    Ok(numbers)
}
