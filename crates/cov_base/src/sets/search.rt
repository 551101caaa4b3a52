//! The search for the interval of a number.
ghost use Rattle.std.specs.Prelude.{◌≡◌, ℕ, ◌<◌, ◌≤◌, ◌<ℤ◌, ◌≤ℤ◌, pos, int_le, length, if◌then◌else◌, ◌↔◌, IsTrue};
ghost use Rattle.cov_spec.specs.Ranges.{InRanges};
ghost use Rattle.cov_base.specs.Sets.{IsNormalForm, is_in, written};
ghost use Rattle.cov_base.specs.Intervals.{low_at, Ascends};

use crate::int::Int;

/// 1 where the number is below 0, else 0, with no branch.
#[inline(always)]
fn sign_bit(number: i128) -> usize
    ensures below { number <ℤ pos 0 → result ≡ 1 }
    ensures others { pos 0 ≤ℤ number → result ≡ 0 }
{
    (number.cast_unsigned() >> 127) as usize
}

/// 1 where `low` isn't above v, else 0, with no branch.
#[inline(always)]
fn reaches(low: Int, v: Int) -> usize
    ensures { result ≡ (if int_le low v then 1 else 0) }
{
    sign_bit(low.get() - v.get() - 1)
}

/// The place of the last interval that begins at v or before it, and 0 where none does. It takes no branch that
/// depends on the numbers.
pub(super) fn place_of(intervals: &[(Int, Int)], v: Int) -> usize
    requires some { 0 < length intervals.now }
    requires ascends { Ascends intervals.now }
    ensures within { result < length intervals.now }
    ensures below { 0 < result → low_at intervals.now result ≤ℤ v }
    ensures above { (t : ℕ) → result < t → t < length intervals.now → v <ℤ low_at intervals.now t }
{
    let mut base = 0;
    let mut size = intervals.len();
    while size > 1 {
        let half = size / 2;
        base += half * reaches(intervals[base + half].0, v);
        size -= half;
    }
    base
}

/// Whether the number is in one of the intervals.
pub(super) fn has(intervals: &[(Int, Int)], v: Int) -> bool
    requires { IsNormalForm intervals.now }
    ensures value { result ≡ is_in (written intervals.now) v }
    ensures in_ranges { IsTrue result ↔ InRanges v intervals.now }
{
    if intervals.is_empty() {
        return false;
    }
    let range = intervals[place_of(intervals, v)];
    range.0.at_most(v) & v.at_most(range.1)
}
