//! How the bins of a design are numbered, and how many parts it has.
ghost use Rattle.std.specs.Prelude.{◌≡◌, ◌-◌, ◌<◌, ◌≤◌, ◌^◌, [], ◌∷◌, min, IfSome};
ghost use Rattle.design_data.specs.Bins.{total, items_in, items_of_group, numbered_items};
ghost use Rattle.design_data.specs.Limits.{ranges_of as ranges_of_rule, ranges_in};
ghost use Rattle.design_data.specs.Tested.{EndsAt, most_end, ranges_of_seqs as ranges_of_all, ranges_of_items as ranges_of_each, ranges_of_bins as ranges_of_them};

use crate::{BinInfo, BinRule, GroupInfo, InstInfo, ItemInfo};
use trans_seq::{Item, Seq};

/// How many items the instances have, `u64::MAX` at most.
pub(crate) fn count_items(instances: &[InstInfo]) -> u64
    ensures { result ≡ min (items_in instances.now) (2 ^ 64 - 1) }
{
    let mut sum = 0u64;
    for inst in instances {
        sum = sum.saturating_add(inst.items.as_slice().len() as u64);
    }
    sum
}

fn ranges_of_items(items: &[Item]) -> u64
    ensures { result ≡ min (ranges_of_each items.now) (2 ^ 64 - 1) }
{
    let mut sum = 0u64;
    for item in items {
        sum = sum.saturating_add(item.set.intervals().len() as u64);
    }
    sum
}

fn ranges_of_seqs(seqs: &[Seq]) -> u64
    ensures { result ≡ min (ranges_of_all seqs.now) (2 ^ 64 - 1) }
{
    let mut sum = 0u64;
    for seq in seqs {
        sum = sum.saturating_add(ranges_of_items(seq.items.as_slice()));
    }
    sum
}

/// How many intervals the sets of a bin have, `u64::MAX` at most.
pub fn ranges_of(rule: &BinRule) -> u64
    ensures { result ≡ min (ranges_of_rule rule.now) (2 ^ 64 - 1) }
{
    match rule {
        BinRule::Values(set) => set.intervals().len() as u64,
        BinRule::Patterns(_) => 0,
        BinRule::Trans(seqs) => ranges_of_seqs(seqs.as_slice()),
        BinRule::Default => 0,
        BinRule::DefaultValues(set) => set.intervals().len() as u64,
        BinRule::DefaultSequence => 0,
        BinRule::Picked(_) => 0,
        BinRule::Product(_) => 0,
    }
}

fn ranges_of_bins(bins: &[BinInfo]) -> u64
    ensures { result ≡ min (ranges_of_them bins.now) (2 ^ 64 - 1) }
{
    let mut sum = 0u64;
    for bin in bins {
        sum = sum.saturating_add(ranges_of(&bin.rule));
    }
    sum
}

fn ranges_of_all_items(items: &[ItemInfo]) -> u64
    ensures { result ≡ min (ranges_in items.now) (2 ^ 64 - 1) }
{
    let mut sum = 0u64;
    for item in items {
        sum = sum.saturating_add(ranges_of_bins(item.bins.as_slice()));
    }
    sum
}

fn ranges_in_group(inst: &InstInfo, group: usize) -> u64
    ensures { result ≡ min (ranges_in (items_of_group (inst.now ∷ []) group)) (2 ^ 64 - 1) }
{
    if inst.group as usize == group {
        return ranges_of_all_items(inst.items.as_slice());
    }
    0
}

fn ranges_of_group(instances: &[InstInfo], group: usize) -> u64
    ensures { result ≡ min (ranges_in (items_of_group instances.now group)) (2 ^ 64 - 1) }
{
    let mut sum = 0u64;
    for inst in instances {
        sum = sum.saturating_add(ranges_in_group(inst, group));
    }
    sum
}

/// How many intervals the bins of all instances of these groups have, `u64::MAX` at most.
pub(crate) fn count_ranges(groups: &[GroupInfo], instances: &[InstInfo]) -> u64
    ensures { result ≡ min (ranges_in (numbered_items groups.now instances.now)) (2 ^ 64 - 1) }
{
    let mut sum = 0u64;
    for group in 0..groups.len() {
        sum = sum.saturating_add(ranges_of_group(instances, group));
    }
    sum
}

/// The number behind the last bin of items whose bins are numbered from `first` on; None where they aren't.
fn end_of_items(items: &[ItemInfo], first: u64) -> Option<u64>
    requires { first ≤ most_end }
    ensures ends { EndsAt first items.now result }
    ensures few { IfSome result (λ end. end ≤ most_end) }
{
    let mut end = first;
    for item in items {
        let own = u64::from(item.first_bin);
        if own != end {
            return None;
        }
        end = own + item.bins.as_slice().len() as u64;
    }
    Some(end)
}

/// The same of the items of an instance, if it is one of the group.
fn end_in_group(inst: &InstInfo, group: usize, first: u64) -> Option<u64>
    requires { first ≤ most_end }
    ensures ends { EndsAt first (items_of_group (inst.now ∷ []) group) result }
    ensures few { IfSome result (λ end. end ≤ most_end) }
{
    if inst.group as usize == group {
        return end_of_items(inst.items.as_slice(), first);
    }
    Some(first)
}

/// The same of the items of a group's instances.
fn end_of_group(instances: &[InstInfo], group: usize, first: u64) -> Option<u64>
    requires { first ≤ most_end }
    ensures ends { EndsAt first (items_of_group instances.now group) result }
    ensures few { IfSome result (λ end. end ≤ most_end) }
{
    let mut end = first;
    for inst in instances {
        match end_in_group(inst, group, end) {
            None => return None,
            Some(next) => end = next,
        }
    }
    Some(end)
}

/// The number behind the last bin of a design whose bins are numbered from 0 on, group by group; None where they aren't.
pub(crate) fn end_of_bins(groups: &[GroupInfo], instances: &[InstInfo]) -> Option<u64>
    ensures { EndsAt 0 (numbered_items groups.now instances.now) result }
{
    let mut end = 0;
    for group in 0..groups.len() {
        match end_of_group(instances, group, end) {
            None => return None,
            Some(next) => end = next,
        }
    }
    Some(end)
}
