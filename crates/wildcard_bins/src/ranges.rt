//! The set of the numbers that agree with a pattern.
ghost use Rattle.std.specs.Prelude.{◌≡◌, ℤ, ℕ, ◌<◌, ◌≤◌, ◌↔◌, ◌++◌, All, length, map, Err, IfOk, OnOk};
ghost use Rattle.cov_ground.specs.Limits.{most_ranges};
ghost use Rattle.cov_base.specs.Sets.{set_of, is_in, written};
ghost use Rattle.wildcard_bins.specs.Patterns.{agrees, agreeing, allows, IsTooMany};
ghost use Rattle.wildcard_bins.specs.Halves.{has_half, halves, moved, IsMovable, IsLowestFixed};

use crate::{Pattern, PatternFault};
use cov_base::{Int, Memory, ValueSet, power_of_two};
use cov_ground::limits::MOST_RANGES;
use std::alloc::Global;

/// The range that is so much higher.
fn moved(range: (Int, Int), step: u128) -> (Int, Int)
    requires { IsMovable step range }
    ensures { result ≡ moved step range }
{
    (range.0.plus(step), range.1.plus(step))
}

/// Adds the ranges that are so much higher.
fn add_moved(out: &mut Vec<(Int, Int)>, ranges: &[(Int, Int)], step: u128) -> Result<(), Memory>
    requires { All (IsMovable step) ranges.now }
    ensures { OnOk result (out.new.items ≡ out.old.items ++ map (moved step) ranges.now) }
{
    for range in ranges {
        out.push(moved(*range, step))?;
    }
    Ok(())
}

/// The ranges, if the lower half has them, and behind them, if the upper half has them, the same ones so much higher.
fn halves_of(
    alloc: Global,
    lower: bool,
    upper: bool,
    step: u128,
    ranges: &[(Int, Int)],
) -> Result<Vec<(Int, Int)>, Memory>
    requires { All (IsMovable step) ranges.now }
    ensures { IfOk result (λ both. both.items ≡ halves lower upper step ranges.now) }
{
    let mut both = Vec::new(alloc);
    if lower {
        both.extend_from_slice(ranges)?;
    }
    if upper {
        add_moved(&mut both, ranges, step)?;
    }
    Ok(both)
}

impl Pattern {
    /// Whether a number may have this bit, 0 or 1, at the place.
    fn allows(&self, place: u8, bit: u64) -> bool
        requires { place < 64 }
        ensures { result ≡ allows self.now place bit }
    {
        if (self.free >> place) & 1 == 1 {
            return true;
        }
        bit == (self.bits >> place) & 1
    }

    /// Whether a number may have the bit at the place that it has where its distance from the lowest number of the
    /// type has this bit there: the same one, and the other one where the place has the sign.
    fn has_half(&self, place: u8, bit: u64) -> bool
        requires place { place < 64 }
        requires bit { bit ≤ 1 }
        ensures { result ≡ has_half self.now place bit }
    {
        if self.signed && place + 1 == self.width.get() {
            return self.allows(place, 1 - bit);
        }
        self.allows(place, bit)
    }

    /// How many places stand below the lowest place that isn't free; all places where each is free.
    fn free_places(&self) -> u8
        ensures { IsLowestFixed self.now result }
    {
        let width = self.width.get();
        let ones = self.free.trailing_ones();
        (ones as u8).min(width)
    }

    /// The number of intervals of the set, with `first` places below the lowest place that isn't free.
    fn range_count(&self, first: u8) -> u64
        requires { IsLowestFixed self.now first }
        ensures { result ≡ length (set_of (agreeing self.now)) }
    {
        let width = self.width.get();
        let mut count = 1;
        for place in first..width {
            count *= 1 + ((self.free >> place) & 1);
        }
        count
    }

    /// The intervals of the set, with `first` places below the lowest place that isn't free.
    fn ranges(&self, alloc: Global, first: u8) -> Result<Vec<(Int, Int)>, Memory>
        requires { IsLowestFixed self.now first }
        ensures { IfOk result (λ ranges. ranges.items ≡ set_of (agreeing self.now)) }
    {
        let width = self.width.get();
        let low = self.lowest();
        let mut ranges = vec![in alloc; (low, low.plus(power_of_two(first) - 1))]?;
        for place in first..width {
            let lower = self.has_half(place, 0);
            let upper = self.has_half(place, 1);
            ranges = halves_of(alloc, lower, upper, power_of_two(place), ranges.as_slice())?;
        }
        Ok(ranges)
    }

    /// The numbers that agree with the pattern, as a set. It refuses more than 65,536 intervals before it makes them,
    /// with how many there are.
    pub fn as_set(&self, alloc: Global) -> Result<ValueSet, PatternFault>
        ensures set { IfOk result (λ set. set ≡ set_of (agreeing self.now)) }
        ensures numbers { IfOk result (λ set. (v : ℤ) → is_in (written set) v ≡ agrees self.now v) }
        ensures most { OnOk result (length (set_of (agreeing self.now)) ≤ most_ranges) }
        ensures too_many { (count : ℕ)
            → (result ≡ Err (PatternFault.TooManyRanges count)) ↔ IsTooMany self.now count }
    {
        let first = self.free_places();
        let count = self.range_count(first);
        if count > MOST_RANGES {
            return Err(PatternFault::TooManyRanges { count });
        }
        let ranges = self.ranges(alloc, first)?;
        let set = ValueSet::from_ranges(alloc, ranges.as_slice())?;
        Ok(set)
    }
}
