//! Items of which each stands once: their lists are taken number by number, and what is known to be found is passed over.
ghost use Rattle.std.specs.Prelude.{◌≡◌, [], ◌++◌, ℕ, replicate, IsTrue, IfOk, IfErr, OnOk};
ghost use Rattle.cov_base.specs.Sets.{written, without};
ghost use Rattle.trans_found.specs.Found.{Holds, Takes, FailsAfter, lists_of};
ghost use Rattle.trans_found.specs.Alone.{IsFront};
ghost use Rattle.trans_found.specs.Held.{begun, begun_by, once as item_once, AreHeld};

use crate::listing::ends;
use crate::widened::{keep, keep_by_sets};
use cov_base::{Int, Memory, ValueSet};
use std::alloc::Global;
use trans_found::ExpandFault;
use trans_found::alone::count_ahead;
use trans_found::found::{Found, found_count, list_of, take_list};
use trans_found::held::{Known, has_all, is_none, known_numbers};
use trans_seq::{Item, Repeat};

/// Adds an item that stands once, so many times.
pub(crate) fn add_once(
    alloc: Global,
    item: &Item,
    times: u32,
    items: &mut Vec<Item>,
) -> Result<(), Memory>
    ensures { OnOk result
        (items.new.items ≡ items.old.items ++ replicate times (item_once item.now)) }
{
    for _ in 0..times {
        let set = item.set.copy(alloc)?;
        items.push(Item {
            set,
            repeat: Repeat::Once,
        })?;
    }
    Ok(())
}

/// Items of which each stands once, and how many items in front they stand for.
#[derive(Drop)]
pub(crate) struct Front {
    pub(crate) once: Vec<Item>,
    pub(crate) size: usize,
}

/// For the items in front that have lists of one length alone, an item that stands once for each of their values.
pub(crate) fn front_of(alloc: Global, items: &[Item]) -> Result<Front, Memory>
    ensures { IfOk result (λ front. IsFront items.now front.once.items front.size) }
{
    let mut once = Vec::new(alloc);
    for (size, item) in items.iter().enumerate() {
        let (low, high) = ends(item.repeat);
        if low != high {
            return Ok(Front { once, size });
        }
        add_once(alloc, item, low, &mut once)?;
    }
    Ok(Front {
        once,
        size: items.len(),
    })
}

/// The numbers of the set that aren't among those that are known.
fn unknown_numbers(alloc: Global, set: &ValueSet, known: &ValueSet) -> Result<ValueSet, Memory>
    ensures { IfOk result (λ left. written left ≡ without (written set.now) (written known.now)) }
{
    if set.intervals().is_empty() {
        return Ok(ValueSet::new(alloc));
    }
    if known.intervals().is_empty() {
        return Ok(set.copy(alloc)?);
    }
    set.minus(alloc, known)
}

/// Whether it is kept what is found of the lists with numbers of the set: that costs about as much as one of its lists.
fn is_kept(set: &ValueSet, rest: &[Item]) -> bool {
    rest.is_empty() || set.count() > 1
}

/// Whether all lists with one number of the set and one of each set of the rest were new, of which so many were.
fn has_only_new(set: &ValueSet, rest: &[Item], added: usize) -> bool {
    count_ahead(rest, set.count()) == added as u128
}

/// Takes the lists that begin with the first numbers and go on with one of each item's set.
#[cycle(take_items)]
pub(crate) fn take_items(
    alloc: Global,
    items: &[Item],
    first: &mut Vec<Int>,
    known: &mut Known,
    found: &mut Found,
) -> Result<(), ExpandFault>
    requires holds { Holds found.old }
    requires held { AreHeld known.old (lists_of found.old) }
    ensures first { OnOk result (first.new.items ≡ first.old.items) }
    ensures ok { OnOk result (Takes found.old found.new (begun first.old.items items.now)) }
    ensures held { OnOk result (AreHeld known.new (lists_of found.new)) }
    ensures err { IfErr result (FailsAfter (lists_of found.old) (begun first.old.items items.now)) }
{
    match items {
        [] => take_first(alloc, first.as_slice(), found),
        [item, rest @ ..] => {
            if is_kept(&item.set, rest) {
                take_unknown(alloc, &item.set, rest, first, known, found)
            } else {
                take_numbers(alloc, &item.set, rest, first, known, found)
            }
        }
    }
}

/// Takes one list.
fn take_first(alloc: Global, first: &[Int], found: &mut Found) -> Result<(), ExpandFault>
    requires { Holds found.old }
    ensures ok { OnOk result (Takes found.old found.new (begun first.now [])) }
    ensures err { IfErr result (FailsAfter (lists_of found.old) (begun first.now [])) }
{
    let list = list_of(alloc, first, &[])?;
    take_list(alloc, list, found)
}

/// Takes the lists that begin with the first numbers, go on with one of the set, and end with one of each item's set. Those
/// that are known are passed over.
#[cycle(take_items)]
fn take_unknown(
    alloc: Global,
    set: &ValueSet,
    rest: &[Item],
    first: &mut Vec<Int>,
    known: &mut Known,
    found: &mut Found,
) -> Result<(), ExpandFault>
    requires holds { Holds found.old }
    requires held { AreHeld known.old (lists_of found.old) }
    ensures first { OnOk result (first.new.items ≡ first.old.items) }
    ensures ok { OnOk result
        (Takes found.old found.new (begun_by first.old.items (written set.now) rest.now)) }
    ensures held { OnOk result (AreHeld known.new (lists_of found.new)) }
    ensures err { IfErr result
        (FailsAfter (lists_of found.old) (begun_by first.old.items (written set.now) rest.now)) }
{
    if has_all(alloc, first.as_slice(), set, rest, known)? {
        return Ok(());
    }
    let before = known_numbers(alloc, first.as_slice(), set, rest, known)?;
    let left = unknown_numbers(alloc, set, &before)?;
    if is_none(&left) {
        return Ok(());
    }
    let old = found_count(found);
    take_numbers(alloc, &left, rest, first, known, found)?;
    let is_new = has_only_new(&left, rest, found_count(found).saturating_sub(old));
    keep_by_sets(alloc, first.as_slice(), set, &before, rest, known)?;
    keep(
        alloc,
        first,
        set,
        &before,
        left.count(),
        rest,
        is_new,
        known,
    )?;
    Ok(())
}

/// Takes the lists that begin with the first numbers, go on with one of the set, and end with one of each item's set.
#[cycle(take_items)]
fn take_numbers(
    alloc: Global,
    set: &ValueSet,
    rest: &[Item],
    first: &mut Vec<Int>,
    known: &mut Known,
    found: &mut Found,
) -> Result<(), ExpandFault>
    requires holds { Holds found.old }
    requires held { AreHeld known.old (lists_of found.old) }
    ensures first { OnOk result (first.new.items ≡ first.old.items) }
    ensures ok { OnOk result
        (Takes found.old found.new (begun_by first.old.items (written set.now) rest.now)) }
    ensures held { OnOk result (AreHeld known.new (lists_of found.new)) }
    ensures err { IfErr result
        (FailsAfter (lists_of found.old) (begun_by first.old.items (written set.now) rest.now)) }
{
    for k in 0..set.count() {
        if let Some(value) = set.nth(k) {
            first.push(value)?;
            take_items(alloc, rest, first, known, found)?;
            first.pop();
        }
    }
    Ok(())
}
