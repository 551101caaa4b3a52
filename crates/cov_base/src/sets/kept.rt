//! What sets of the same numbers have in common in memory.
ghost use Rattle.std.specs.Prelude.{◌≡◌, [], ◌∷◌, IfOk, IfSome, slice_get};
ghost use Rattle.cov_base.specs.Sets.{IsNormalForm, written};
ghost use Rattle.cov_base.specs.Intervals.{total as total_of};
ghost use Rattle.cov_base.specs.Kept.{ranges_of, ranges_in, IsKept, IsKeptIn};

use crate::Memory;
use crate::int::Int;
use crate::numbers::size_of;
use crate::sets::counts::{Counts, count, nth as nth_counted};
use std::alloc::Global;
use std::slice;
use std::sync::Arc;

/// The intervals of a set, with what is counted of them. One interval takes no memory of its own.
#[derive(Drop)]
pub(super) enum Kept {
    One {
        range: (Int, Int),
    },
    Many {
        intervals: Vec<(Int, Int)>,
        counts: Counts,
    },
}

/// The interval, where there is one alone.
fn only_one(intervals: &[(Int, Int)]) -> Option<(Int, Int)>
    ensures { IfSome result (λ range. intervals.now ≡ range ∷ []) }
{
    match intervals {
        [range] => Some(*range),
        _ => None,
    }
}

/// Keeps intervals in normal form.
fn kept_of(alloc: Global, intervals: Vec<(Int, Int)>) -> Result<Kept, Memory>
    requires { IsNormalForm intervals.items }
    ensures ranges { IfOk result (λ kept. ranges_of kept ≡ intervals.items) }
    ensures kept { IfOk result (λ kept. IsKept kept) }
{
    if let Some(range) = only_one(intervals.as_slice()) {
        return Ok(Kept::One { range });
    }
    let counts = count(alloc, intervals.as_slice())?;
    Ok(Kept::Many { intervals, counts })
}

/// Keeps intervals in normal form where they can be shared. None takes no memory.
pub(super) fn shared(alloc: Global, intervals: Vec<(Int, Int)>) -> Result<Option<Arc<Kept>>, Memory>
    requires { IsNormalForm intervals.items }
    ensures ranges { IfOk result (λ kept. ranges_in kept ≡ intervals.items) }
    ensures kept { IfOk result (λ kept. IsKeptIn kept) }
{
    if intervals.is_empty() {
        return Ok(None);
    }
    let kept = kept_of(alloc, intervals)?;
    match Arc::new(alloc, kept) {
        Ok(shared) => Ok(Some(shared)),
        Err(_) => Err(Memory),
    }
}

/// The intervals.
pub(super) fn ranges(kept: &Option<Arc<Kept>>) -> &[(Int, Int)]
    ensures { result.now ≡ ranges_in kept.now }
{
    match kept {
        Some(kept) => ranges_kept(kept),
        None => &[],
    }
}

fn ranges_kept(kept: &Kept) -> &[(Int, Int)]
    ensures { result.now ≡ ranges_of kept.now }
{
    match kept {
        Kept::One { range } => slice::from_ref(range),
        Kept::Many { intervals, .. } => intervals.as_slice(),
    }
}

/// How many numbers the intervals have.
pub(super) fn total(kept: &Option<Arc<Kept>>) -> u128
    requires { IsKeptIn kept.now }
    ensures { result ≡ total_of 0 (ranges_in kept.now) }
{
    match kept {
        Some(kept) => total_kept(kept),
        None => 0,
    }
}

fn total_kept(kept: &Kept) -> u128
    requires { IsKept kept.now }
    ensures { result ≡ total_of 0 (ranges_of kept.now) }
{
    match kept {
        Kept::One { range } => size_of(range.0, range.1),
        Kept::Many { counts, .. } => counts.total,
    }
}

/// The number at place k.
#[tactic(auto, unfolding(crate::specs::Sets::written))]
pub(super) fn nth(kept: &Option<Arc<Kept>>, k: u128) -> Option<Int>
    requires { IsKeptIn kept.now }
    ensures { result ≡ slice_get (written (ranges_in kept.now)) k }
{
    match kept {
        Some(kept) => nth_kept(kept, k),
        None => None,
    }
}

fn nth_kept(kept: &Kept, k: u128) -> Option<Int>
    requires { IsKept kept.now }
    ensures { result ≡ slice_get (written (ranges_of kept.now)) k }
{
    match kept {
        Kept::One { range } => {
            let total = size_of(range.0, range.1);
            nth_counted(slice::from_ref(range), &[0], total, k)
        }
        Kept::Many { intervals, counts } => nth_counted(
            intervals.as_slice(),
            counts.starts.as_slice(),
            counts.total,
            k,
        ),
    }
}
