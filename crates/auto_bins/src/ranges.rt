//! The numbers of a type, spread over ranges.
ghost use Rattle.std.specs.Prelude.{◌≡◌, ◌+◌, ◌≤◌, pos, ◌+ℤ◌, ◌-ℤ◌, ◌≤ℤ◌, map, IfOk};
ghost use Rattle.cov_base.specs.Sets.{span, count_from, greatest};
ghost use Rattle.bin_spec.specs.Parts.{parts};
ghost use Rattle.cov_ground.specs.Limits.{most_bins};
ghost use Rattle.auto_bins.specs.Automatic.{automatic_parts, automatic_ranges, AllInOrder};

use bit_width::Width;
use cov_base::{Int, Memory, lowest_of, power_of_two};
use std::alloc::Global;

/// A type of numbers, in two's complement where it is signed.
#[derive(Clone, Copy, PartialEq, Eq)]
pub struct Typ2 {
    pub width: Width,
    pub signed: bool,
}

/// The range of `count` numbers, at least one, that stand from place `first` on among those from `low` on.
fn range_at(low: Int, first: u128, count: u128) -> (Int, Int)
    requires some { 1 ≤ count }
    requires high { (low +ℤ pos (first + count)) ≤ℤ (greatest +ℤ pos 1) }
    ensures low_end { result.0 ≡ low +ℤ pos first }
    ensures high_end { result.1 ≡ (low +ℤ pos (first + count)) -ℤ pos 1 }
    ensures order { result.0 ≤ℤ result.1 }
{
    let start = low.get() + first as i128;
    let end = start + (count - 1) as i128;
    (Int::of(start), Int::of(end))
}

/// So many numbers from `low` on, spread over `bins` ranges, of which each has one number at least.
fn spread_from(alloc: Global, low: Int, count: u128, bins: u128) -> Result<Vec<(Int, Int)>, Memory>
    requires high { (low +ℤ pos count) ≤ℤ (greatest +ℤ pos 1) }
    requires some { 1 ≤ bins }
    requires most { bins ≤ count }
    ensures spread { IfOk result (λ ranges. map span ranges.items ≡ parts (count_from low count) bins) }
    ensures order { IfOk result (λ ranges. AllInOrder ranges.items) }
{
    let share = count / bins;
    let last = bins - 1;
    let mut ranges = Vec::new(alloc);
    for bin in 0..last {
        ranges.push(range_at(low, bin * share, share))?;
    }
    ranges.push(range_at(low, last * share, count - last * share))?;
    Ok(ranges)
}

/// The automatic bins of a point of this type, each as a range: all numbers in ascending order, spread over as many
/// bins as there are numbers, and over `max` bins, 1 to 65,536, where that is fewer. The last bin has those that are
/// left over too.
pub fn auto_ranges(alloc: Global, typ: Typ2, max: u32) -> Result<Vec<(Int, Int)>, Memory>
    requires some { 1 ≤ max }
    requires most { max ≤ most_bins }
    ensures parts { IfOk result
        (λ ranges. map span ranges.items ≡ automatic_parts typ.width typ.signed max) }
    ensures ranges { IfOk result
        (λ ranges. ranges.items ≡ automatic_ranges typ.width typ.signed max) }
{
    let width = typ.width.get();
    let low = lowest_of(typ.width, typ.signed);
    let count = power_of_two(width);
    let ranges = spread_from(alloc, low, count, count.min(max as u128))?;
    Ok(ranges)
}
