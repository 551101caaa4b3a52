//! Listed numbers that are in a set.
ghost use Rattle.std.specs.Prelude.{◌≡◌, ℕ, ◌≤◌, ◌++◌, length, filter, map, drop, OnOk};
ghost use Rattle.std.specs.Int.{int_max, int_min};
ghost use Rattle.cov_base.specs.Sets.{written, span, is_in};
ghost use Rattle.value_bins.specs.Clips.{clip, EndBelow, StandInOrder};

use cov_base::{Int, Memory};

/// The greater of the two.
fn greater(one: Int, other: Int) -> Int
    ensures { result ≡ int_max one other }
{
    if other.get() < one.get() { one } else { other }
}

/// The lesser of the two.
fn lesser(one: Int, other: Int) -> Int
    ensures { result ≡ int_min one other }
{
    if one.get() < other.get() { one } else { other }
}

/// How many intervals end below a number.
fn count_below(intervals: &[(Int, Int)], low: Int) -> usize
    requires { StandInOrder intervals.now }
    ensures bound { result ≤ length intervals.now }
    ensures below { EndBelow low intervals.now result }
{
    let mut from = 0;
    let mut size = intervals.len();
    while size > 0 {
        let half = size / 2;
        if intervals[from + half].1.get() < low.get() {
            from += half + 1;
            size -= half + 1;
        } else {
            size = half;
        }
    }
    from
}

/// Adds what the intervals have of a range.
fn add_clips(
    kept: &mut Vec<(Int, Int)>,
    low: Int,
    high: Int,
    intervals: &[(Int, Int)],
) -> Result<(), Memory>
    requires { StandInOrder intervals.now }
    ensures { OnOk result (written kept.new.items
        ≡ written kept.old.items ++ written (map (clip (low, high)) intervals.now)) }
{
    for interval in intervals {
        if high.get() < interval.0.get() {
            return Ok(());
        }
        kept.push((greater(low, interval.0), lesser(high, interval.1)))?;
    }
    Ok(())
}

/// Adds the numbers of a range that are in the intervals. The work grows with the intervals that meet the range.
pub(crate) fn add_within(
    kept: &mut Vec<(Int, Int)>,
    low: Int,
    high: Int,
    intervals: &[(Int, Int)],
) -> Result<(), Memory>
    requires { StandInOrder intervals.now }
    ensures { OnOk result (written kept.new.items
        ≡ written kept.old.items ++ filter (is_in (written intervals.now)) (span (low, high))) }
{
    let first = count_below(intervals, low);
    add_clips(kept, low, high, &intervals[first..])
}
