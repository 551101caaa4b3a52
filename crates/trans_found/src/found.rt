//! The distinct lists of a sequence, as they are found.
ghost use Rattle.std.specs.Prelude.{◌≡◌, ℕ, List, [], ◌∷◌, ◌++◌, map, IfOk, IfErr, OnOk};
ghost use Rattle.cov_base.specs.Sets.{written};
ghost use Rattle.trans_found.specs.Found.{Holds, Takes, FailsAfter, Closes, Extends, continued, lists_of, new_groups};
ghost use Rattle.trans_found.specs.Lists.{choices, joined, all_of};

use crate::fault::ExpandFault;
use cov_base::{Int, Memory, ValueSet};
use cov_ground::limits::MOST_BINS;
use cov_tree::List;
use std::alloc::Global;
use std::collections::HashSet;
use std::mem;

/// The lists found so far, in groups of the same lengths, of which the last is still open.
#[derive(Drop)]
pub struct Found {
    pub groups: Vec<List<List<Int>>>,
    pub fresh: Vec<List<Int>>,
    seen: HashSet<Vec<i128>>,
    count: usize,
}

/// No lists.
pub fn none_found(alloc: Global) -> Found
    ensures holds { Holds result }
    ensures groups { result.groups.items ≡ [] }
    ensures fresh { result.fresh.items ≡ [] }
{
    Found {
        groups: Vec::new(alloc),
        fresh: Vec::new(alloc),
        seen: HashSet::new(alloc),
        count: 0,
    }
}

/// How many lists are found.
pub fn found_count(found: &Found) -> usize {
    found.count
}

/// The numbers of a list, as a key.
fn key_of(alloc: Global, list: &[Int]) -> Result<Vec<i128>, Memory>
    ensures { IfOk result (λ key. key.items ≡ list.now) }
{
    let mut key = Vec::with_capacity(alloc, list.len())?;
    for value in list {
        key.push(value.get())?;
    }
    Ok(key)
}

/// The values of the two parts.
pub fn list_of(alloc: Global, first: &[Int], rest: &[Int]) -> Result<List<Int>, Memory>
    ensures { IfOk result (λ list. list ≡ first.now ++ rest.now) }
{
    let mut values = Vec::with_capacity(alloc, first.len().saturating_add(rest.len()))?;
    values.extend_from_slice(first)?;
    values.extend_from_slice(rest)?;
    Ok(List::of(values))
}

/// Takes a list into the open group, where it is new.
pub fn take_list(alloc: Global, list: List<Int>, found: &mut Found) -> Result<(), ExpandFault>
    requires { Holds found.old }
    ensures ok { OnOk result (Takes found.old found.new (list ∷ [])) }
    ensures err { IfErr result (FailsAfter (lists_of found.old) (list ∷ [])) }
{
    if !found.seen.insert(key_of(alloc, list.as_slice())?)? {
        return Ok(());
    }
    if found.count == MOST_BINS {
        return Err(ExpandFault::TooManyBins {
            count: MOST_BINS as u64 + 1,
        });
    }
    found.fresh.push(list)?;
    found.count += 1;
    Ok(())
}

/// Takes the lists that begin with `first` and end with one of the group.
pub fn take_group(
    alloc: Global,
    first: &[Int],
    group: &[List<Int>],
    found: &mut Found,
) -> Result<(), ExpandFault>
    requires { Holds found.old }
    ensures ok { OnOk result
        (Takes found.old found.new (map (λ rest. first.now ++ rest) group.now)) }
    ensures err { IfErr result
        (FailsAfter (lists_of found.old) (map (λ rest. first.now ++ rest) group.now)) }
{
    for rest in group {
        let list = list_of(alloc, first, rest.as_slice())?;
        take_list(alloc, list, found)?;
    }
    Ok(())
}

/// Takes these lists.
pub fn take_all(alloc: Global, lists: Vec<List<Int>>, found: &mut Found) -> Result<(), ExpandFault>
    requires { Holds found.old }
    ensures ok { OnOk result (Takes found.old found.new lists.items) }
    ensures err { IfErr result (FailsAfter (lists_of found.old) lists.items) }
{
    for list in lists {
        take_list(alloc, list, found)?;
    }
    Ok(())
}

/// Takes the lists that begin with `first`, go on with `more` numbers of the set, and end with one of the group.
fn take_choices(
    alloc: Global,
    set: &ValueSet,
    more: u32,
    first: &mut Vec<Int>,
    group: &[List<Int>],
    found: &mut Found,
) -> Result<(), ExpandFault>
    requires { Holds found.old }
    ensures first { OnOk result (first.new.items ≡ first.old.items) }
    ensures ok { OnOk result (Takes found.old found.new
        (continued (written set.now) first.old.items more group.now)) }
    ensures err { IfErr result (FailsAfter (lists_of found.old)
        (continued (written set.now) first.old.items more group.now)) }
{
    if more == 0 {
        return take_group(alloc, first.as_slice(), group, found);
    }
    for k in 0..set.count() {
        if let Some(value) = set.nth(k) {
            first.push(value)?;
            take_choices(alloc, set, more - 1, first, group, found)?;
            first.pop();
        }
    }
    Ok(())
}

/// Closes the open group. An empty one is left out.
fn close(alloc: Global, found: &mut Found) -> Result<(), Memory>
    requires { Holds found.old }
    ensures { OnOk result (Closes found.old found.new) }
{
    if found.fresh.is_empty() {
        return Ok(());
    }
    let fresh = mem::replace(&mut found.fresh, Vec::new(alloc));
    found.groups.push(List::of(fresh))?;
    Ok(())
}

/// Takes the lists of so many numbers of the set and one of the groups behind them, in one group for each of these.
pub fn take_length(
    alloc: Global,
    set: &ValueSet,
    size: u32,
    groups: &[List<List<Int>>],
    found: &mut Found,
) -> Result<(), ExpandFault>
    requires holds { Holds found.old }
    requires closed { found.old.fresh.items ≡ [] }
    ensures ok { OnOk result (Extends found.old found.new
        (map (λ group. joined (choices (written set.now) size) group) groups.now)) }
    ensures err { IfErr result (FailsAfter (all_of found.old.groups.items)
        (all_of (map (λ group. joined (choices (written set.now) size) group) groups.now))) }
{
    let mut first = Vec::new(alloc);
    for group in groups {
        take_choices(alloc, set, size, &mut first, group.as_slice(), found)?;
        close(alloc, found)?;
    }
    Ok(())
}
