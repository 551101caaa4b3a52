//! The lists of a sequence, written out.
ghost use Rattle.std.specs.Prelude.{◌≡◌, ◌+◌, ◌-◌, ◌<◌, ◌≤◌, ◌↔◌, ℤ, Contains, List, [], false, map, length, IsTrue, IfOk, IfErr, IfSome, IfNone, OnOk, All};
ghost use Rattle.std.specs.List.{list_any};
ghost use Rattle.cov_ground.specs.Limits.{most_bins, most_cells};
ghost use Rattle.trans_found.specs.Held.{AreHeld};
ghost use Rattle.trans_found.specs.Found.{lists_of, Holds, Takes, FailsAfter, Merges, Extends, HasList, NoList, AllHaveList, SomeNoList, in_front, new_groups, packed};
ghost use Rattle.trans_seq.specs.Cells.{cells_of_repeat, cells_of_items};
ghost use Rattle.trans_seq.specs.Windows.{HasWord, SomeHasWord};
ghost use Rattle.trans_found.specs.Lists.{lengths, by_lengths, from_on, all_of, listed, is_endless, has_endless as seq_has_endless, IsShort, IsFirstLong, HasEndless, Expands, RefusesToExpand, ExpandsAll, RefusesToExpandAll, lists_by_all, listed_by_all};

use crate::chosen::{has_few_choices, take_each};
use crate::met::{Met, is_held, none_met};
use crate::spread::front_of;
use cov_base::{Int, Memory, ValueSet};
use cov_ground::limits::MOST_CELLS;
use cov_tree::List;
use std::alloc::Global;
use trans_found::ExpandFault;
use trans_found::alone::groups_before;
use trans_found::found::{Found, none_found, take_all, take_length};
use trans_found::held::{Known, none_known};
use trans_seq::{Item, Repeat, Seq, cells, same_values};

/// Whether the item has lists of any length.
fn is_unbounded(item: &Item) -> bool
    ensures { result ≡ is_endless item.now }
{
    match item.repeat {
        Repeat::Once => false,
        Repeat::Consec { .. } => false,
        Repeat::Goto { .. } => true,
        Repeat::NonConsec { .. } => true,
    }
}

/// Whether an item has lists of any length.
fn has_unbounded(items: &[Item]) -> bool
    ensures { result ≡ list_any is_endless items.now }
{
    items.iter().any(|item| is_unbounded(item))
}

/// The least and the greatest length of an item's lists. For an item with lists of any length they are the wrong way
/// round.
pub(crate) fn ends(repeat: Repeat) -> (u32, u32)
    ensures all { lengths repeat ≡ from_on result.0 (result.1 + 1 - result.0) }
    ensures most { result.1 ≤ cells_of_repeat repeat }
{
    match repeat {
        Repeat::Once => (1, 1),
        Repeat::Consec { low, high } => (low, high),
        Repeat::Goto { .. } => (1, 0),
        Repeat::NonConsec { .. } => (1, 0),
    }
}

/// Whether the item has a list.
fn has_list(item: &Item) -> bool
    ensures some { IsTrue result → HasList item.now }
    ensures none { result ≡ false → NoList item.now }
{
    let (low, high) = ends(item.repeat);
    low <= high && (low == 0 || item.set.count() > 0)
}

/// Whether each item has a list.
fn all_have_list(items: &[Item]) -> bool
    ensures all { IsTrue result → AllHaveList items.now }
    ensures some { result ≡ false → SomeNoList items.now }
{
    match items {
        [] => true,
        [item, rest @ ..] => has_list(item) && all_have_list(rest),
    }
}

/// The lists of `low` to `high` numbers of a set with those of the groups behind, in groups of the same lengths.
fn with_lengths(
    alloc: Global,
    set: &ValueSet,
    low: u32,
    high: u32,
    groups: &[List<List<Int>>],
) -> Result<Vec<List<List<Int>>>, ExpandFault>
    ensures ok { IfOk result
        (λ made. made.items ≡ packed (new_groups [] (in_front set.now low high groups.now))) }
    ensures few { IfOk result (λ made. length (all_of made.items) ≤ most_bins) }
    ensures err { IfErr result (FailsAfter [] (all_of (in_front set.now low high groups.now))) }
{
    let mut found = none_found(alloc);
    for size in low..=high {
        take_length(alloc, set, size, groups, &mut found)?;
    }
    Ok(found.groups)
}

/// Behind `low` to `high` numbers of a set, passes over the items of the same set: how many numbers there are with
/// theirs, and the items behind them.
pub(crate) fn run_of<'a>(
    set: &ValueSet,
    low: u32,
    high: u32,
    items: &'a [Item],
) -> (u32, u32, &'a [Item])
    requires order { low ≤ high }
    requires lists { AllHaveList items.now }
    requires short { high + cells_of_items items.now ≤ most_cells }
    ensures order { result.0 ≤ result.1 }
    ensures most { result.1 ≤ most_cells }
    ensures lists { AllHaveList result.2.now }
    ensures short { cells_of_items result.2.now ≤ most_cells }
    ensures fewer { length result.2.now ≤ length items.now }
    ensures same { packed (new_groups [] (in_front set.now low high (by_lengths items.now)))
        ≡ packed (new_groups [] (in_front set.now result.0 result.1 (by_lengths result.2.now))) }
    ensures behind { (fault : ExpandFault) → FailsAfter [] (all_of (by_lengths result.2.now)) fault
        → FailsAfter [] (all_of (by_lengths items.now)) fault }
{
    match items {
        [] => (low, high, items),
        [item, rest @ ..] => {
            if !same_values(&item.set, set) {
                return (low, high, items);
            }
            let (least, most) = ends(item.repeat);
            run_of(set, low + least, high + most, rest)
        }
    }
}

/// The lists of the items, in groups of the same lengths. Those in front that have lists of one length alone are put
/// before the others at once.
#[cycle(grouped)]
fn grouped(alloc: Global, items: &[Item]) -> Result<Vec<List<List<Int>>>, ExpandFault>
    requires lists { AllHaveList items.now }
    requires short { cells_of_items items.now ≤ most_cells }
    ensures ok { IfOk result (λ made. made.items ≡ packed (new_groups [] (by_lengths items.now))) }
    ensures few { IfOk result (λ made. length (listed items.now) ≤ most_bins) }
    ensures err { IfErr result (FailsAfter [] (all_of (by_lengths items.now))) }
{
    let front = front_of(alloc, items)?;
    if front.size == 0 {
        return varied(alloc, items);
    }
    let groups = grouped(alloc, &items[front.size..])?;
    groups_before(alloc, front.once.as_slice(), groups.as_slice())
}

/// The lists of the items, in groups of the same lengths. Items of one set that stand one after the other are taken
/// together.
#[cycle(grouped)]
fn varied(alloc: Global, items: &[Item]) -> Result<Vec<List<List<Int>>>, ExpandFault>
    requires lists { AllHaveList items.now }
    requires short { cells_of_items items.now ≤ most_cells }
    ensures ok { IfOk result (λ made. made.items ≡ packed (new_groups [] (by_lengths items.now))) }
    ensures few { IfOk result (λ made. length (listed items.now) ≤ most_bins) }
    ensures err { IfErr result (FailsAfter [] (all_of (by_lengths items.now))) }
{
    match items {
        [] => {
            let empty = List::of(Vec::new(alloc));
            let group = List::of(vec![in alloc; empty]?);
            Ok(vec![in alloc; group]?)
        }
        [item, rest @ ..] => {
            let (least, most) = ends(item.repeat);
            let (low, high, behind) = run_of(&item.set, least, most, rest);
            let groups = grouped(alloc, behind)?;
            with_lengths(alloc, &item.set, low, high, groups.as_slice())
        }
    }
}

/// The lists of all groups.
fn flattened(alloc: Global, groups: Vec<List<List<Int>>>) -> Result<Vec<List<Int>>, Memory>
    ensures { IfOk result (λ lists. lists.items ≡ all_of groups.items) }
{
    let mut lists = Vec::new(alloc);
    for group in groups {
        lists.append(&mut group.into_vec())?;
    }
    Ok(lists)
}

/// The distinct lists of values that the sequence stands for. They stand in the order of the lengths of their items'
/// parts, ascending, the first item's length running slowest; lists of the same lengths stand by ascending values,
/// the last one running fastest. A list that was there before is left out.
///
/// It is refused where an item has `[->` or `[=`; else where the greatest lengths of the items are more than
/// `MOST_CELLS` together, even where an item has no list; else where more than `MOST_BINS` lists are distinct. Items that
/// have lists of one length alone are put before the lists behind them at once, and items of one set that stand one after
/// the other are taken as one. The work is then, from one item of several lengths to the next, at most what its set and
/// lengths make of the distinct lists behind it, and never the number of ways to make a list.
pub fn expand(alloc: Global, seq: &Seq) -> Result<Vec<List<Int>>, ExpandFault>
    ensures lists { IfOk result (λ lists. Expands seq.now.items lists.items) }
    ensures windows { IfOk result
        (λ lists. (w : List ℤ) → Contains lists.items w ↔ HasWord seq.now w) }
    ensures refuses { IfErr result (RefusesToExpand seq.now.items) }
{
    let items = seq.items.as_slice();
    if has_unbounded(items) {
        return Err(ExpandFault::Unbounded);
    }
    let values = cells(seq);
    if values > MOST_CELLS {
        return Err(ExpandFault::TooLong { cells: values });
    }
    if !all_have_list(items) {
        return Ok(Vec::new(alloc));
    }
    let groups = grouped(alloc, items)?;
    Ok(flattened(alloc, groups)?)
}

/// Whether an item of a sequence has lists of any length.
fn some_has_unbounded(seqs: &[Seq]) -> bool
    ensures { result ≡ list_any seq_has_endless seqs.now }
{
    seqs.iter().any(|seq| has_unbounded(seq.items.as_slice()))
}

/// How many cells the first sequence has that has too many, if there is one.
fn first_too_long(seqs: &[Seq]) -> Option<u64>
    ensures none { IfNone result (All IsShort seqs.now) }
    ensures some { IfSome result (λ cells. IsFirstLong seqs.now cells) }
{
    for seq in seqs {
        let values = cells(seq);
        if values > MOST_CELLS {
            return Some(values);
        }
    }
    None
}

/// The distinct lists of values that the sequences of one declaration stand for: those of the first sequence in the
/// order of `expand`, then those of the next, of which one that was there before is left out.
///
/// It is refused where an item has `[->` or `[=`; else where a sequence has more than `MOST_CELLS` cells, the first such
/// one being told; else where more than `MOST_BINS` lists are distinct over all sequences. A sequence with few choices of
/// its items' lengths is gone through number by number for each of them, and what an earlier one is known to have is
/// passed over without being written out.
pub fn expand_all(alloc: Global, seqs: &[Seq]) -> Result<Vec<List<Int>>, ExpandFault>
    ensures lists { IfOk result (λ lists. ExpandsAll seqs.now lists.items) }
    ensures windows { IfOk result
        (λ lists. (w : List ℤ) → Contains lists.items w ↔ SomeHasWord seqs.now w) }
    ensures refuses { IfErr result (RefusesToExpandAll seqs.now) }
{
    if some_has_unbounded(seqs) {
        return Err(ExpandFault::Unbounded);
    }
    if let Some(cells) = first_too_long(seqs) {
        return Err(ExpandFault::TooLong { cells });
    }
    distinct(alloc, seqs)
}

/// The distinct lists of the sequences, each of which is within the limit on values.
fn distinct(alloc: Global, seqs: &[Seq]) -> Result<Vec<List<Int>>, ExpandFault>
    requires bounded { list_any seq_has_endless seqs.now ≡ false }
    requires short { All IsShort seqs.now }
    ensures lists { IfOk result (λ lists. lists.items ≡ listed_by_all seqs.now) }
    ensures few { IfOk result (λ lists. length (listed_by_all seqs.now) ≤ most_bins) }
    ensures err { IfErr result (FailsAfter [] (lists_by_all seqs.now)) }
{
    match seqs {
        [seq] => alone(alloc, seq),
        _ => merged(alloc, seqs),
    }
}

/// The lists of a sequence by itself, which are distinct.
fn alone(alloc: Global, seq: &Seq) -> Result<Vec<List<Int>>, ExpandFault>
    requires bounded { seq_has_endless seq.now ≡ false }
    requires short { IsShort seq.now }
    ensures lists { IfOk result (λ lists. lists.items ≡ listed seq.now.items) }
    ensures few { IfOk result (λ lists. length (listed seq.now.items) ≤ most_bins) }
    ensures err { IfErr result (FailsAfter [] (listed seq.now.items)) }
{
    expand(alloc, seq)
}

/// The distinct lists of several sequences, each of which is within the limit on values.
fn merged(alloc: Global, seqs: &[Seq]) -> Result<Vec<List<Int>>, ExpandFault>
    requires bounded { list_any seq_has_endless seqs.now ≡ false }
    requires short { All IsShort seqs.now }
    ensures lists { IfOk result (λ lists. lists.items ≡ listed_by_all seqs.now) }
    ensures few { IfOk result (λ lists. length (listed_by_all seqs.now) ≤ most_bins) }
    ensures err { IfErr result (FailsAfter [] (lists_by_all seqs.now)) }
{
    let mut met = none_met(alloc);
    let mut known = none_known(alloc);
    let mut found = none_found(alloc);
    for place in 0..seqs.len() {
        take_seq(alloc, seqs, place, &mut met, &mut known, &mut found)?;
    }
    Ok(found.fresh)
}

/// Takes the lists of the sequence at a place, those of the earlier ones being taken. Where an earlier one is known to
/// have them all, nothing is written out.
fn take_seq(
    alloc: Global,
    seqs: &[Seq],
    place: usize,
    met: &mut Met,
    known: &mut Known,
    found: &mut Found,
) -> Result<(), ExpandFault>
    requires within { place < length seqs.now }
    requires bounded { list_any seq_has_endless seqs.now ≡ false }
    requires short { All IsShort seqs.now }
    requires merges { Merges seqs.now place found.old }
    requires held { AreHeld known.old (lists_of found.old) }
    ensures ok { OnOk result (Merges seqs.now (place + 1) found.new) }
    ensures held { OnOk result (AreHeld known.new (lists_of found.new)) }
    ensures err { IfErr result (FailsAfter [] (lists_by_all seqs.now)) }
{
    let seq = &seqs[place];
    let held = is_held(alloc, seqs, place, met)?;
    if held {
        return Ok(());
    }
    take_lists(alloc, seq, known, found)?;
    Ok(())
}

/// Takes the lists of a sequence.
fn take_lists(
    alloc: Global,
    seq: &Seq,
    known: &mut Known,
    found: &mut Found,
) -> Result<(), ExpandFault>
    requires bounded { seq_has_endless seq.now ≡ false }
    requires short { IsShort seq.now }
    requires holds { Holds found.old }
    requires held { AreHeld known.old (lists_of found.old) }
    ensures ok { OnOk result (Takes found.old found.new (listed seq.now.items)) }
    ensures held { OnOk result (AreHeld known.new (lists_of found.new)) }
    ensures err { IfErr result (FailsAfter (lists_of found.old) (listed seq.now.items)) }
{
    let items = seq.items.as_slice();
    let is_empty = !all_have_list(items);
    if is_empty {
        return Ok(());
    }
    if has_few_choices(items) {
        take_each(alloc, items, known, found)
    } else {
        take_expanded(alloc, seq, found)
    }
}

/// Takes the lists of a sequence as they are written out.
fn take_expanded(alloc: Global, seq: &Seq, found: &mut Found) -> Result<(), ExpandFault>
    requires bounded { seq_has_endless seq.now ≡ false }
    requires short { IsShort seq.now }
    requires holds { Holds found.old }
    ensures ok { OnOk result (Takes found.old found.new (listed seq.now.items)) }
    ensures err { IfErr result (FailsAfter (lists_of found.old) (listed seq.now.items)) }
{
    let lists = expand(alloc, seq)?;
    take_all(alloc, lists, found)?;
    Ok(())
}
