//! Intervals joined and cut: what makes the normal form, in one pass over intervals in order of their low ends.
ghost use Rattle.std.specs.Prelude.{◌≡◌, IfOk, OnOk, ◌++◌, []};
ghost use Rattle.cov_base.specs.Sets.{IsNormalForm};
ghost use Rattle.cov_base.specs.Intervals.{joined, joins, before, after, merged, front, pieces, beyond, less};

use crate::Memory;
use crate::int::Int;
use crate::sets::search::place_of;
use std::alloc::Global;

/// Adds an interval that begins no earlier than those before it: it grows the last one where it overlaps or touches
/// it.
fn join(out: &mut Vec<(Int, Int)>, range: (Int, Int)) -> Result<(), Memory>
    ensures { OnOk result (out.new.items ≡ joined out.old.items range) }
{
    let count = out.len();
    if count > 0 {
        let last = out[count - 1];
        if range.0.get() <= last.1.get() + 1 {
            out[count - 1] = (last.0, last.1.larger(range.1));
            return Ok(());
        }
    }
    out.push(range)?;
    Ok(())
}

/// Adds intervals that are in order of their low ends.
pub(super) fn join_all(out: &mut Vec<(Int, Int)>, ranges: &[(Int, Int)]) -> Result<(), Memory>
    ensures { OnOk result (out.new.items ≡ joins out.old.items ranges.now) }
{
    for range in ranges {
        join(out, *range)?;
    }
    Ok(())
}

/// Adds those that begin below `low`, and answers the others.
fn join_before<'a>(
    out: &mut Vec<(Int, Int)>,
    ranges: &'a [(Int, Int)],
    low: Int,
) -> Result<&'a [(Int, Int)], Memory>
    ensures joined { OnOk result (out.new.items ≡ joins out.old.items (before low ranges.now)) }
    ensures rest { IfOk result (λ rest. rest.now ≡ after low ranges.now) }
{
    for (i, range) in ranges.iter().enumerate() {
        if range.0.get() >= low.get() {
            return Ok(&ranges[i..]);
        }
        join(out, *range)?;
    }
    Ok(&ranges[ranges.len()..])
}

/// The intervals of both lists, each of which is in order of its low ends, joined.
pub(super) fn union_of(
    alloc: Global,
    left: &[(Int, Int)],
    right: &[(Int, Int)],
) -> Result<Vec<(Int, Int)>, Memory>
    ensures { IfOk result (λ union. union.items ≡ joins [] (merged left.now right.now)) }
{
    let mut out = Vec::new(alloc);
    let mut rest = right;
    for range in left {
        rest = join_before(&mut out, rest, range.0)?;
        join(&mut out, *range)?;
    }
    join_all(&mut out, rest)?;
    Ok(out)
}

/// Adds the numbers from `low` on that stand before a hole.
fn add_front(out: &mut Vec<(Int, Int)>, low: Int, hole: Int) -> Result<(), Memory>
    ensures { OnOk result (out.new.items ≡ out.old.items ++ front low hole) }
{
    if low.get() < hole.get() {
        out.push((low, hole.previous()))?;
    }
    Ok(())
}

/// Adds what is left of an interval without the holes, and answers the holes that reach beyond it.
fn cut<'a>(
    out: &mut Vec<(Int, Int)>,
    piece: (Int, Int),
    holes: &'a [(Int, Int)],
) -> Result<&'a [(Int, Int)], Memory>
    ensures pieces { OnOk result (out.new.items ≡ out.old.items ++ pieces piece holes.now) }
    ensures rest { IfOk result (λ rest. rest.now ≡ beyond piece.1 holes.now) }
{
    let mut low = piece.0;
    let high = piece.1;
    for (i, hole) in holes.iter().enumerate() {
        if high.get() < hole.0.get() {
            out.push((low, high))?;
            return Ok(&holes[i..]);
        }
        add_front(out, low, hole.0)?;
        if high.get() <= hole.1.get() {
            return Ok(&holes[i..]);
        }
        low = low.larger(hole.1.next());
    }
    out.push((low, high))?;
    Ok(&holes[holes.len()..])
}

/// The holes without those that end before the intervals begin, both in normal form. It takes a binary search.
fn reaching<'a>(intervals: &[(Int, Int)], holes: &'a [(Int, Int)]) -> &'a [(Int, Int)]
    requires intervals { IsNormalForm intervals.now }
    requires holes { IsNormalForm holes.now }
    ensures { less intervals.now result.now ≡ less intervals.now holes.now }
{
    if intervals.is_empty() {
        return holes;
    }
    if holes.is_empty() {
        return holes;
    }
    let first = intervals[0];
    &holes[place_of(holes, first.0)..]
}

/// What is left of intervals without the holes, both in normal form.
pub(super) fn without(
    alloc: Global,
    intervals: &[(Int, Int)],
    holes: &[(Int, Int)],
) -> Result<Vec<(Int, Int)>, Memory>
    requires intervals { IsNormalForm intervals.now }
    requires holes { IsNormalForm holes.now }
    ensures { IfOk result (λ left. left.items ≡ less intervals.now holes.now) }
{
    let mut out = Vec::new(alloc);
    let mut rest = reaching(intervals, holes);
    for range in intervals {
        rest = cut(&mut out, *range, rest)?;
    }
    Ok(out)
}
