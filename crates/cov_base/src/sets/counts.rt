//! How many numbers stand before each interval.
ghost use Rattle.std.specs.Prelude.{◌≡◌, ℕ, ◌<◌, ◌≤◌, IfOk, length, slice_index, slice_get};
ghost use Rattle.cov_base.specs.Sets.{IsNormalForm, written};
ghost use Rattle.cov_base.specs.Stored.{IsStored};
ghost use Rattle.cov_base.specs.Intervals.{starts, total};

use crate::Memory;
use crate::int::Int;
use crate::numbers::size_of;
use std::alloc::Global;

/// For each interval how many numbers stand before it, and how many there are.
#[derive(Drop)]
pub(super) struct Counts {
    pub(super) starts: Vec<u128>,
    pub(super) total: u128,
}

/// Counts the numbers of intervals in normal form.
pub(super) fn count(alloc: Global, intervals: &[(Int, Int)]) -> Result<Counts, Memory>
    requires { IsNormalForm intervals.now }
    ensures starts { IfOk result (λ counts. counts.starts.items ≡ starts 0 intervals.now) }
    ensures total { IfOk result (λ counts. counts.total ≡ total 0 intervals.now) }
{
    let mut starts = Vec::new(alloc);
    let mut total = 0;
    for range in intervals {
        starts.push(total)?;
        total += size_of(range.0, range.1);
    }
    Ok(Counts { starts, total })
}

/// The place of the last interval before which at most k numbers stand.
pub(super) fn place_of(starts: &[u128], k: u128) -> usize
    requires some { 0 < length starts.now }
    requires first { slice_index starts.now 0 ≤ k }
    requires ascends { (i j : ℕ) → i ≤ j → j < length starts.now → slice_index starts.now i ≤ slice_index starts.now j }
    ensures within { result < length starts.now }
    ensures reached { slice_index starts.now result ≤ k }
    ensures above { (t : ℕ) → result < t → t < length starts.now → k < slice_index starts.now t }
{
    starts.partition_point(|start| *start <= k) - 1
}

/// The number at place k of intervals, of which it is known how many numbers stand before each, and how many in all.
pub(super) fn nth(intervals: &[(Int, Int)], starts: &[u128], total: u128, k: u128) -> Option<Int>
    requires { IsStored intervals.now starts.now total }
    ensures { result ≡ slice_get (written intervals.now) k }
{
    if k >= total {
        return None;
    }
    let place = place_of(starts, k);
    Some(intervals[place].0.plus(k - starts[place]))
}
