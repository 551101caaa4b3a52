//! Lists with one number of each of several sets in front of others. They differ where the others do, so that no table of
//! them is kept.
ghost use Rattle.std.specs.Prelude.{◌≡◌, ◌*◌, ◌≤◌, min, [], ◌∷◌, ◌++◌, length, map, IfOk, IfErr, IfSome, OnOk};
ghost use Rattle.cov_base.specs.Sets.{written, set_of};
ghost use Rattle.cov_ground.specs.Limits.{most_bins};
ghost use Rattle.trans_found.specs.Found.{packed};
ghost use Rattle.trans_found.specs.Held.{words};
ghost use Rattle.trans_found.specs.Lists.{all_of};
ghost use Rattle.trans_found.specs.Alone.{ahead, behind, behind_by, groups_ahead, Exceeds, AreOrdered};

use crate::fault::ExpandFault;
use cov_base::{Int, Memory, ValueSet};
use cov_ground::limits::MOST_BINS;
use cov_tree::List;
use std::alloc::Global;
use trans_seq::Item;

/// The values of the three parts.
fn list_of(alloc: Global, first: &[Int], tail: &[Int], rest: &[Int]) -> Result<List<Int>, Memory>
    ensures { IfOk result (λ list. list ≡ first.now ++ (tail.now ++ rest.now)) }
{
    let behind = tail.len().saturating_add(rest.len());
    let mut values = Vec::with_capacity(alloc, first.len().saturating_add(behind))?;
    values.extend_from_slice(first)?;
    values.extend_from_slice(tail)?;
    values.extend_from_slice(rest)?;
    Ok(List::of(values))
}

/// Adds the lists of the group, each with the first numbers and the tail in front.
fn add_group(
    alloc: Global,
    first: &[Int],
    tail: &[Int],
    group: &[List<Int>],
    lists: &mut Vec<List<Int>>,
) -> Result<(), Memory>
    ensures { OnOk result
        (lists.new.items ≡ lists.old.items ++ behind first.now (behind tail.now group.now)) }
{
    for rest in group {
        let list = list_of(alloc, first, tail, rest.as_slice())?;
        lists.push(list)?;
    }
    Ok(())
}

/// Adds the lists that begin with the first numbers, go on with one of each item's set, and end with the tail and one of
/// the group.
#[cycle(add_lists)]
fn add_lists(
    alloc: Global,
    items: &[Item],
    tail: &[Int],
    group: &[List<Int>],
    first: &mut Vec<Int>,
    lists: &mut Vec<List<Int>>,
) -> Result<(), Memory>
    ensures first { OnOk result (first.new.items ≡ first.old.items) }
    ensures lists { OnOk result
        (lists.new.items ≡ lists.old.items
        ++ behind first.old.items (ahead items.now (behind tail.now group.now))) }
{
    match items {
        [] => add_group(alloc, first.as_slice(), tail, group, lists),
        [item, rest @ ..] => add_numbers(alloc, &item.set, rest, tail, group, first, lists),
    }
}

/// Adds the lists that begin with the first numbers, go on with one of the set and one of each item's set, and end with
/// the tail and one of the group.
#[cycle(add_lists)]
fn add_numbers(
    alloc: Global,
    set: &ValueSet,
    rest: &[Item],
    tail: &[Int],
    group: &[List<Int>],
    first: &mut Vec<Int>,
    lists: &mut Vec<List<Int>>,
) -> Result<(), Memory>
    ensures first { OnOk result (first.new.items ≡ first.old.items) }
    ensures lists { OnOk result
        (lists.new.items ≡ lists.old.items ++ behind_by first.old.items (written set.now)
        (ahead rest.now (behind tail.now group.now))) }
{
    for k in 0..set.count() {
        if let Some(value) = set.nth(k) {
            first.push(value)?;
            add_lists(alloc, rest, tail, group, first, lists)?;
            first.pop();
        }
    }
    Ok(())
}

/// The lists of the group, each with one number of each item's set and the tail in front.
fn lists_before(
    alloc: Global,
    items: &[Item],
    tail: &[Int],
    group: &[List<Int>],
) -> Result<Vec<List<Int>>, Memory>
    ensures { IfOk result
        (λ lists. lists.items ≡ ahead items.now (behind tail.now group.now)) }
{
    let mut first = Vec::new(alloc);
    let mut lists = Vec::new(alloc);
    add_lists(alloc, items, tail, group, &mut first, &mut lists)?;
    Ok(lists)
}

/// Adds a group, unless it is empty.
fn add_some(lists: Vec<List<Int>>, groups: &mut Vec<List<List<Int>>>) -> Result<(), Memory>
    ensures { OnOk result
        (groups.new.items ≡ groups.old.items ++ packed (lists.items ∷ [])) }
{
    if lists.is_empty() {
        return Ok(());
    }
    groups.push(List::of(lists))?;
    Ok(())
}

/// The groups, each list with one number of each item's set and the tail in front.
fn with_tail(
    alloc: Global,
    items: &[Item],
    tail: &[Int],
    groups: &[List<List<Int>>],
) -> Result<Vec<List<List<Int>>>, Memory>
    ensures { IfOk result (λ made. made.items
        ≡ packed (map (λ group. ahead items.now (behind tail.now group)) groups.now)) }
{
    let mut made = Vec::new(alloc);
    for group in groups {
        let lists = lists_before(alloc, items, tail, group.as_slice())?;
        add_some(lists, &mut made)?;
    }
    Ok(made)
}

/// Whether a set has two numbers or more.
fn has_more(set: &ValueSet) -> bool
    ensures { set_of (written set.now) ≡ set.now }
{
    match set.intervals() {
        [] => false,
        [range] => range.0.get() < range.1.get(),
        _ => true,
    }
}

/// So many items that those behind them have one number each at most.
fn before_tail(items: &[Item]) -> usize
    ensures within { result ≤ length items.now }
    ensures ordered { AreOrdered items.now }
{
    let mut size = 0;
    for (k, item) in items.iter().enumerate() {
        if has_more(&item.set) {
            size = k + 1;
        }
    }
    size
}

/// The number of a set that has one.
pub fn only_number(set: &ValueSet) -> Option<Int>
    ensures { IfSome result (λ number. written set.now ≡ number ∷ []) }
{
    if set.count() == 1 { set.nth(0) } else { None }
}

/// The only list of items whose sets have one number each.
fn only_list(alloc: Global, items: &[Item]) -> Result<Option<Vec<Int>>, Memory>
    ensures { IfOk result (λ list. IfSome list (λ list. words items.now ≡ list.items ∷ [])) }
{
    let mut list = Vec::with_capacity(alloc, items.len())?;
    for item in items {
        let Some(number) = only_number(&item.set) else {
            return Ok(None);
        };
        list.push(number)?;
    }
    Ok(Some(list))
}

/// How many lists the groups have; the greatest `u64` where there are more.
fn count_of(groups: &[List<List<Int>>]) -> u64
    ensures { result ≡ min (length (all_of groups.now)) u64.MAX }
{
    let mut count: u64 = 0;
    for group in groups {
        count = count.saturating_add(group.as_slice().len() as u64);
    }
    count
}

/// How many lists have one number of each item's set in front of one of so many; the greatest `u128` where there are more.
pub fn count_ahead(items: &[Item], lists: u128) -> u128
    ensures { result ≡ min (length (words items.now) * lists) u128.MAX }
{
    match items {
        [] => lists,
        [item, rest @ ..] => item.set.count().saturating_mul(count_ahead(rest, lists)),
    }
}

/// The groups, each list with one number of each item's set in front, which are distinct where those behind are. A group
/// without lists is left out. Lists that are too many are counted before one is written.
pub fn groups_before(
    alloc: Global,
    items: &[Item],
    groups: &[List<List<Int>>],
) -> Result<Vec<List<List<Int>>>, ExpandFault>
    ensures ok { IfOk result
        (λ made. made.items ≡ packed (groups_ahead items.now groups.now)) }
    ensures few { IfOk result
        (λ made. length (all_of (groups_ahead items.now groups.now)) ≤ most_bins) }
    ensures err { IfErr result (Exceeds (length (all_of (groups_ahead items.now groups.now)))) }
    ensures ordered { AreOrdered items.now }
{
    let size = before_tail(items);
    let count = count_ahead(items, u128::from(count_of(groups)));
    if count > MOST_BINS as u128 {
        return Err(ExpandFault::TooManyBins {
            count: MOST_BINS as u64 + 1,
        });
    }
    match only_list(alloc, &items[size..])? {
        Some(tail) => Ok(with_tail(alloc, &items[..size], tail.as_slice(), groups)?),
        None => Ok(with_tail(alloc, items, &[], groups)?),
    }
}
