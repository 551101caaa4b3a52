//! Which cuts of a window the lists of items lead to.
ghost use Rattle.std.specs.Prelude.{◌≡◌, ◌+◌, ◌<◌, ◌≤◌, ◌↔◌, ◌||◌, ℕ, IsTrue, IfOk, length, replicate, slice_index_or, true, false};
ghost use Rattle.trans_seq.specs.Windows.{is_known_in, AllOutside, IsOne, InItem, InSeq};
ghost use Rattle.trans_seq.specs.Reach.{Leads, IsPart, IsRepeated};

use crate::seq::{Item, Repeat, Seq};
use crate::windows::is_inside;
use cov_base::{Int, Memory, ValueSet};
use std::alloc::Global;

/// No cut of the window. A cut is told by the number of samples before it.
fn no_cuts(alloc: Global, window: &[Option<Int>]) -> Result<Vec<bool>, Memory>
    ensures { IfOk result (λ cuts. cuts.items ≡ replicate (length window.now + 1) false) }
{
    Ok(vec![in alloc; false; window.len() + 1]?)
}

/// The cuts behind one sample inside.
fn one_inside(
    alloc: Global,
    set: &ValueSet,
    window: &[Option<Int>],
    cuts: &[bool],
) -> Result<Vec<bool>, Memory>
    requires { length cuts.now ≡ length window.now + 1 }
    ensures size { IfOk result (λ next. length next.items ≡ length window.now + 1) }
    ensures leads { IfOk result
        (λ next. Leads (IsOne (is_known_in set.now)) window.now cuts.now next.items) }
{
    let mut next = no_cuts(alloc, window)?;
    for (k, sample) in window.iter().enumerate() {
        let inside = is_inside(set, *sample);
        next[k + 1] = cuts[k] & inside;
    }
    Ok(next)
}

/// The cuts behind any number of samples outside.
fn any_outside(
    alloc: Global,
    set: &ValueSet,
    window: &[Option<Int>],
    cuts: &[bool],
) -> Result<Vec<bool>, Memory>
    requires { length cuts.now ≡ length window.now + 1 }
    ensures size { IfOk result (λ next. length next.items ≡ length window.now + 1) }
    ensures leads { IfOk result
        (λ next. Leads (AllOutside (is_known_in set.now)) window.now cuts.now next.items) }
{
    let mut next = no_cuts(alloc, window)?;
    let mut reached = cuts[0];
    next[0] = reached;
    for (k, sample) in window.iter().enumerate() {
        let outside = !is_inside(set, *sample);
        reached = cuts[k + 1] | (reached & outside);
        next[k + 1] = reached;
    }
    Ok(next)
}

/// The cuts of either.
fn either(alloc: Global, first: &[bool], second: &[bool]) -> Result<Vec<bool>, Memory>
    requires { length first.now ≡ length second.now }
    ensures size { IfOk result (λ all. length all.items ≡ length first.now) }
    ensures each { IfOk result
        (λ all. (k : ℕ) → slice_index_or all.items k false
        ≡ (slice_index_or first.now k false || slice_index_or second.now k false)) }
{
    let mut all = vec![in alloc; false; first.len()]?;
    for k in 0..first.len() {
        all[k] = first[k] | second[k];
    }
    Ok(all)
}

/// The cuts behind a block, or else behind one sample inside.
fn once_more(
    alloc: Global,
    blocks: bool,
    set: &ValueSet,
    window: &[Option<Int>],
    cuts: &[bool],
) -> Result<Vec<bool>, Memory>
    requires { length cuts.now ≡ length window.now + 1 }
    ensures size { IfOk result (λ next. length next.items ≡ length window.now + 1) }
    ensures leads { IfOk result
        (λ next. Leads (IsPart (is_known_in set.now) blocks) window.now cuts.now next.items) }
{
    if blocks {
        let begun = any_outside(alloc, set, window, cuts)?;
        one_inside(alloc, set, window, begun.as_slice())
    } else {
        one_inside(alloc, set, window, cuts)
    }
}

/// The cuts where none of the blocks or samples stands: those before them, where none has to stand.
fn before_any(
    alloc: Global,
    low: u32,
    window: &[Option<Int>],
    cuts: &[bool],
) -> Result<Vec<bool>, Memory>
    ensures here { IfOk result (λ found. low ≡ 0 → found.items ≡ cuts.now) }
    ensures none { IfOk result
        (λ found. 0 < low → found.items ≡ replicate (length window.now + 1) false) }
{
    if low == 0 {
        Ok(Vec::from_slice(alloc, cuts)?)
    } else {
        no_cuts(alloc, window)
    }
}

/// The cuts behind from `low` to `high` blocks, or else samples inside.
fn repeated(
    alloc: Global,
    blocks: bool,
    set: &ValueSet,
    low: u32,
    high: u32,
    window: &[Option<Int>],
    cuts: &[bool],
) -> Result<Vec<bool>, Memory>
    requires { length cuts.now ≡ length window.now + 1 }
    ensures size { IfOk result (λ next. length next.items ≡ length window.now + 1) }
    ensures leads { IfOk result
        (λ next. Leads (IsRepeated (is_known_in set.now) blocks low high)
        window.now cuts.now next.items) }
{
    let mut now = Vec::from_slice(alloc, cuts)?;
    let mut found = before_any(alloc, low, window, cuts)?;
    let most = window.len().min(high as usize);
    for m in 0..most {
        now = once_more(alloc, blocks, set, window, now.as_slice())?;
        if low as usize <= m + 1 {
            found = either(alloc, found.as_slice(), now.as_slice())?;
        }
    }
    Ok(found)
}

/// The cuts behind a list of the item.
fn after_item(
    alloc: Global,
    item: &Item,
    last: bool,
    window: &[Option<Int>],
    cuts: &[bool],
) -> Result<Vec<bool>, Memory>
    requires { length cuts.now ≡ length window.now + 1 }
    ensures size { IfOk result (λ next. length next.items ≡ length window.now + 1) }
    ensures leads { IfOk result
        (λ next. Leads (InItem item.now last) window.now cuts.now next.items) }
{
    let set = &item.set;
    match item.repeat {
        Repeat::Once => one_inside(alloc, set, window, cuts),
        Repeat::Consec { low, high } => repeated(alloc, false, set, low, high, window, cuts),
        Repeat::Goto { low, high } => repeated(alloc, true, set, low, high, window, cuts),
        Repeat::NonConsec { low, high } => {
            let at = repeated(alloc, true, set, low, high, window, cuts)?;
            if last {
                Ok(at)
            } else {
                any_outside(alloc, set, window, at.as_slice())
            }
        }
    }
}

/// The cut before the first sample alone.
fn first_cut(alloc: Global, window: &[Option<Int>]) -> Result<Vec<bool>, Memory>
    ensures size { IfOk result (λ cuts. length cuts.items ≡ length window.now + 1) }
    ensures first { IfOk result (λ cuts. slice_index_or cuts.items 0 false ≡ true) }
    ensures others { IfOk result
        (λ cuts. (k : ℕ) → 0 < k → slice_index_or cuts.items k false ≡ false) }
{
    let mut cuts = no_cuts(alloc, window)?;
    cuts[0] = true;
    Ok(cuts)
}

/// Whether the window is a list of the sequence. It takes at most as many steps as the sequence has cells, each of which
/// goes over the window, and memory for a mark of each sample.
pub fn window_in(alloc: Global, seq: &Seq, window: &[Option<Int>]) -> Result<bool, Memory>
    ensures { IfOk result (λ is. IsTrue is ↔ InSeq seq.now.items window.now) }
{
    let items = seq.items.as_slice();
    let mut cuts = first_cut(alloc, window)?;
    for (i, item) in items.iter().enumerate() {
        cuts = after_item(alloc, item, i + 1 == items.len(), window, cuts.as_slice())?;
    }
    let reached = cuts.as_slice();
    Ok(reached[window.len()])
}
