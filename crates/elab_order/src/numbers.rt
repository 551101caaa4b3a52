//! The numbers of bins.
ghost use Rattle.std.specs.Prelude.{◌≡◌, ◌+◌, ◌^◌, ◌<◌, ◌≤◌, ◌==◌, nat_lt, length, map, IfOk, if◌then◌else◌};
ghost use Rattle.cov_ground.specs.Limits.{most_design_bins, most_instances};
ghost use Rattle.design_data.specs.Bins.{bins_in, total};
ghost use Rattle.elab_order.specs.Order.{items_numbered, load_of as load_meant, bins_where, first_of, numbered_from, numbered};

use cov_ground::Memory;
use cov_tree::List;
use design_data::{InstInfo, ItemInfo};
use std::alloc::Global;

/// The group of an instance, and how many bins it has.
#[derive(Drop)]
pub struct Load {
    pub group: u32,
    pub bins: u32,
}

/// How many bins there are behind an item's own.
fn behind(next: u32, item: &ItemInfo) -> u32
    requires { next + length item.now.bins ≤ most_design_bins }
    ensures { result ≡ next + length item.now.bins }
{
    next + item.bins.as_slice().len() as u32
}

/// Items with their bins numbered from `first` on.
#[tactic(auto, using(crate::proofs::Steps::more_items, crate::proofs::Steps::more_bins, crate::proofs::Steps::room_for))]
fn number_items(alloc: Global, items: List<ItemInfo>, first: u32) -> Result<List<ItemInfo>, Memory>
    requires { first + bins_in items ≤ most_design_bins }
    ensures { IfOk result (λ done. done ≡ items_numbered first items) }
{
    let mut done = Vec::new(alloc);
    let mut next = first;
    for item in items.into_vec() {
        let mut item = item;
        item.first_bin = next;
        next = behind(next, &item);
        done.push(item)?;
    }
    Ok(List::of(done))
}

/// How many bins items have.
#[tactic(auto, using(crate::proofs::Steps::total_more, crate::proofs::Steps::total_front))]
fn count_bins(items: &[ItemInfo]) -> u32
    requires { bins_in items.now ≤ most_design_bins }
    ensures { result ≡ bins_in items.now }
{
    let mut next = 0;
    for item in items {
        next = behind(next, item);
    }
    next
}

/// The load of an instance.
fn load_of(inst: &InstInfo) -> Load
    requires { bins_in inst.now.items ≤ most_design_bins }
    ensures { result ≡ load_meant inst.now }
{
    Load {
        group: inst.group,
        bins: count_bins(inst.items.as_slice()),
    }
}

/// The loads of all instances.
#[tactic(auto, using(crate::proofs::Steps::inst_fits))]
fn loads_of(alloc: Global, instances: &[InstInfo]) -> Result<Vec<Load>, Memory>
    requires { total (λ inst. bins_in inst.items) instances.now ≤ most_design_bins }
    ensures { IfOk result (λ loads. loads.items ≡ map load_meant instances.now) }
{
    let mut loads = Vec::new(alloc);
    for inst in instances {
        loads.push(load_of(inst))?;
    }
    Ok(loads)
}

/// The bins of an instance, where its group stands before this one.
fn part_before(load: &Load, group: u32) -> u64
    ensures value { result ≡ (if nat_lt load.now.group group then load.now.bins else 0) }
    ensures bound { result < 2 ^ 32 }
{
    if load.group < group {
        load.bins as u64
    } else {
        0
    }
}

/// The bins of an instance, where it is of this group.
fn part_of_group(load: &Load, group: u32) -> u64
    ensures value { result ≡ (if load.now.group == group then load.now.bins else 0) }
    ensures bound { result < 2 ^ 32 }
{
    if load.group == group {
        load.bins as u64
    } else {
        0
    }
}

/// The bins of the groups before one.
fn bins_before(loads: &[Load], group: u32) -> u64
    requires { length loads.now ≤ most_instances }
    ensures { result ≡ bins_where (λ g. nat_lt g group) loads.now }
{
    let mut bins = 0u64;
    for load in loads {
        bins += part_before(load, group);
    }
    bins
}

/// The bins of one group.
fn bins_of_group(loads: &[Load], group: u32) -> u64
    requires { length loads.now ≤ most_instances }
    ensures { result ≡ bins_where (λ g. g == group) loads.now }
{
    let mut bins = 0u64;
    for load in loads {
        bins += part_of_group(load, group);
    }
    bins
}

/// The number of the first bin of the instance at place `place`.
fn first_bin(loads: &[Load], place: usize, group: u32) -> u32
    requires few { length loads.now ≤ most_instances }
    requires place { place ≤ length loads.now }
    requires fits { first_of loads.now place group ≤ most_design_bins }
    ensures { result ≡ first_of loads.now place group }
{
    (bins_before(loads, group) + bins_of_group(&loads[..place], group)) as u32
}

/// Instances with their bins numbered in the order of the nodes.
#[tactic(auto, unfolding(crate::specs::Order::numbered))]
pub fn number(alloc: Global, instances: List<InstInfo>) -> Result<List<InstInfo>, Memory>
    requires few { length instances ≤ most_instances }
    requires bins { total (λ inst. bins_in inst.items) instances ≤ most_design_bins }
    ensures { IfOk result (λ done. done ≡ numbered instances) }
{
    let loads = loads_of(alloc, instances.as_slice())?;
    let done = number_all(alloc, loads.as_slice(), instances)?;
    Ok(done)
}

/// Instances with these loads, numbered.
#[tactic(auto, using(crate::proofs::Steps::begins))]
fn number_all(
    alloc: Global,
    loads: &[Load],
    instances: List<InstInfo>,
) -> Result<List<InstInfo>, Memory>
    requires few { length instances ≤ most_instances }
    requires bins { total (λ inst. bins_in inst.items) instances ≤ most_design_bins }
    requires loads { loads.now ≡ map load_meant instances }
    ensures { IfOk result (λ done. done ≡ numbered_from loads.now 0 instances) }
{
    let mut done = Vec::new(alloc);
    for inst in instances.into_vec() {
        let first = first_bin(loads, done.as_slice().len(), inst.group);
        done.push(with_numbers(alloc, inst, first)?)?;
    }
    Ok(List::of(done))
}

/// An instance whose bins are numbered from `first` on.
fn with_numbers(alloc: Global, inst: InstInfo, first: u32) -> Result<InstInfo, Memory>
    requires { first + bins_in inst.items ≤ most_design_bins }
    ensures { IfOk result (λ done. done ≡ record inst { items = items_numbered first inst.items }) }
{
    let mut inst = inst;
    let items = std::mem::replace(&mut inst.items, List::new(alloc));
    inst.items = number_items(alloc, items, first)?;
    Ok(inst)
}
