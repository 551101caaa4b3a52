//! The nodes of a design, put one behind the other.
ghost use Rattle.std.specs.Prelude.{◌≡◌, ◌<◌, ◌≤◌, ◌+◌, ◌++◌, ◌∷◌, [], length, OnOk, IfOk};
ghost use Rattle.cov_ground.specs.Limits.{most_design_bins};
ghost use Rattle.design_data.specs.Bins.{bins_in, numbered_items};
ghost use Rattle.ucis_model.specs.Nodes.{kind_of as kind_meant, bins_of, own_of, item_node, bin_node, has_some, with_bins, with_item, with_items, with_instance, with_instances, with_group, with_groups, nodes_of};

use crate::growing::Nodes;
use crate::{Node, NodeKind, Tree};
use cov_ground::Memory;
use cov_tree::Name;
use design_data::{BinInfo, Design, GroupInfo, InstInfo, ItemInfo, ItemShape};
use std::alloc::Global;

/// A bin.
fn add_bin(
    alloc: Global,
    nodes: &mut Nodes,
    parent: u32,
    at_least: u32,
    next: u32,
    bin: &BinInfo,
) -> Result<(), Memory>
    requires { parent < length nodes.old }
    ensures { OnOk result (nodes.new ≡ nodes.old ++ bin_node parent at_least next bin.now ∷ []) }
{
    let node = Node {
        kind: NodeKind::Bin(bin.kind),
        name: bin.name.share()?,
        parent,
        first_bin: next,
        bins: 1,
        weight: 1,
        type_weight: 1,
        goal: 100,
        at_least,
        merge: false,
    };
    nodes.add(node)
}

/// The bins of an item.
fn add_bins(
    alloc: Global,
    nodes: &mut Nodes,
    parent: u32,
    at_least: u32,
    first: u32,
    bins: &[BinInfo],
) -> Result<(), Memory>
    requires parent { parent < length nodes.old }
    requires few { first + length bins.now ≤ most_design_bins }
    ensures { OnOk result (nodes.new ≡ with_bins parent at_least first bins.now nodes.old) }
{
    let mut next = first;
    for bin in bins {
        add_bin(alloc, nodes, parent, at_least, next, bin)?;
        next += 1;
    }
    Ok(())
}

fn kind_of(shape: &ItemShape) -> NodeKind
    ensures { result ≡ kind_meant shape.now }
{
    match shape {
        ItemShape::Point(_) => NodeKind::CoverPoint,
        ItemShape::Cross(_) => NodeKind::Cross,
    }
}

/// An item without its bins.
fn item(alloc: Global, parent: u32, next: u32, item: &ItemInfo) -> Result<Node, Memory>
    requires { next + length item.now.bins ≤ most_design_bins }
    ensures { IfOk result (λ node. node ≡ item_node parent next item.now) }
{
    Ok(Node {
        kind: kind_of(&item.shape),
        name: item.name.share()?,
        parent,
        first_bin: next,
        bins: item.bins.as_slice().len() as u32,
        weight: item.weight,
        type_weight: item.type_weight,
        goal: item.goal,
        at_least: item.at_least,
        merge: false,
    })
}

/// An item with its bins.
#[tactic(auto, unfolding(crate::specs::Nodes::with_item))]
fn add_item(
    alloc: Global,
    nodes: &mut Nodes,
    parent: u32,
    next: u32,
    found: &ItemInfo,
) -> Result<(), Memory>
    requires parent { parent < length nodes.old }
    requires few { next + length found.now.bins ≤ most_design_bins }
    ensures { OnOk result (nodes.new ≡ with_item parent next found.now nodes.old) }
{
    let place = nodes.len();
    nodes.add(item(alloc, parent, next, found)?)?;
    add_bins(
        alloc,
        nodes,
        place,
        found.at_least,
        next,
        found.bins.as_slice(),
    )
}

/// The items of an instance.
fn add_items(
    alloc: Global,
    nodes: &mut Nodes,
    parent: u32,
    first: u32,
    items: &[ItemInfo],
) -> Result<(), Memory>
    requires parent { parent < length nodes.old }
    requires few { first + bins_in items.now ≤ most_design_bins }
    ensures { OnOk result (nodes.new ≡ with_items parent first items.now nodes.old) }
{
    let mut next = first;
    for found in items {
        add_item(alloc, nodes, parent, next, found)?;
        next += found.bins.as_slice().len() as u32;
    }
    Ok(())
}

/// How many bins items have.
fn bins_of_items(items: &[ItemInfo]) -> u32
    requires { bins_in items.now ≤ most_design_bins }
    ensures { result ≡ bins_in items.now }
{
    let mut bins = 0;
    for item in items {
        bins += item.bins.as_slice().len() as u32;
    }
    bins
}

/// An instance with its items.
#[tactic(auto, unfolding(crate::specs::Nodes::with_instance))]
fn add_instance(
    alloc: Global,
    nodes: &mut Nodes,
    parent: u32,
    next: u32,
    inst: &InstInfo,
) -> Result<(), Memory>
    requires parent { parent < length nodes.old }
    requires few { next + bins_in inst.now.items ≤ most_design_bins }
    ensures { OnOk result (nodes.new ≡ with_instance parent next inst.now nodes.old) }
{
    let place = nodes.len();
    let node = Node {
        kind: NodeKind::CoverInstance,
        name: inst.name.share()?,
        parent,
        first_bin: next,
        bins: bins_of_items(inst.items.as_slice()),
        weight: inst.weight,
        type_weight: 1,
        goal: inst.goal,
        at_least: 1,
        merge: false,
    };
    nodes.add(node)?;
    add_items(alloc, nodes, place, next, inst.items.as_slice())
}

/// How many bins an instance has, where it is of the group at a place.
fn own_bins(inst: &InstInfo, group: usize) -> u32
    requires { bins_of (own_of (inst.now ∷ []) group) ≤ most_design_bins }
    ensures { result ≡ bins_of (own_of (inst.now ∷ []) group) }
{
    if inst.group as usize == group {
        return bins_of_items(inst.items.as_slice());
    }
    0
}

/// An instance, where it is of the group at a place.
fn add_own(
    alloc: Global,
    nodes: &mut Nodes,
    parent: u32,
    next: u32,
    inst: &InstInfo,
    group: usize,
) -> Result<(), Memory>
    requires parent { parent < length nodes.old }
    requires few { next + bins_of (own_of (inst.now ∷ []) group) ≤ most_design_bins }
    ensures { OnOk result (nodes.new ≡ with_instances parent next (own_of (inst.now ∷ []) group) nodes.old) }
{
    if inst.group as usize == group {
        return add_instance(alloc, nodes, parent, next, inst);
    }
    Ok(())
}

/// The instances of the group at a place.
fn add_instances(
    alloc: Global,
    nodes: &mut Nodes,
    parent: u32,
    first: u32,
    instances: &[InstInfo],
    group: usize,
) -> Result<(), Memory>
    requires parent { parent < length nodes.old }
    requires few { first + bins_of (own_of instances.now group) ≤ most_design_bins }
    ensures { OnOk result (nodes.new ≡ with_instances parent first (own_of instances.now group) nodes.old) }
{
    let mut next = first;
    for inst in instances {
        add_own(alloc, nodes, parent, next, inst, group)?;
        next += own_bins(inst, group);
    }
    Ok(())
}

/// Whether the group at a place has an instance.
fn has_own(instances: &[InstInfo], group: usize) -> bool
    ensures { result ≡ has_some (own_of instances.now group) }
{
    for inst in instances {
        if inst.group as usize == group {
            return true;
        }
    }
    false
}

/// How many bins the instances of the group at a place have.
fn bins_of_group(instances: &[InstInfo], group: usize) -> u32
    requires { bins_of (own_of instances.now group) ≤ most_design_bins }
    ensures { result ≡ bins_of (own_of instances.now group) }
{
    let mut bins = 0;
    for inst in instances {
        bins += own_bins(inst, group);
    }
    bins
}

/// The group at a place, of so many bins, with its instances, if it has some.
#[tactic(auto, using(crate::proofs::Steps::group_alone, crate::proofs::Steps::group_whole))]
fn add_group(
    alloc: Global,
    nodes: &mut Nodes,
    next: u32,
    bins: u32,
    instances: &[InstInfo],
    place: usize,
    group: &GroupInfo,
) -> Result<(), Memory>
    requires root { 0 < length nodes.old }
    requires bins { bins ≡ bins_of (own_of instances.now place) }
    requires few { next + bins ≤ most_design_bins }
    ensures { OnOk result (nodes.new ≡ with_group next group.now (own_of instances.now place) nodes.old) }
{
    if !has_own(instances, place) {
        return Ok(());
    }
    let at = nodes.len();
    let node = Node {
        kind: NodeKind::CoverGroup,
        name: group.name.share()?,
        parent: 0,
        first_bin: next,
        bins,
        weight: group.weight,
        type_weight: 1,
        goal: group.goal,
        at_least: 1,
        merge: group.merge,
    };
    nodes.add(node)?;
    add_instances(alloc, nodes, at, next, instances, place)
}

/// All groups.
fn add_groups(
    alloc: Global,
    nodes: &mut Nodes,
    instances: &[InstInfo],
    groups: &[GroupInfo],
) -> Result<(), Memory>
    requires root { 0 < length nodes.old }
    requires few { bins_in (numbered_items groups.now instances.now) ≤ most_design_bins }
    ensures { OnOk result (nodes.new ≡ with_groups 0 instances.now 0 groups.now nodes.old) }
{
    let mut next = 0;
    for (place, group) in groups.iter().enumerate() {
        let bins = bins_of_group(instances, place);
        add_group(alloc, nodes, next, bins, instances, place, group)?;
        next += bins;
    }
    Ok(())
}

/// The tree of a design.
#[tactic(auto, unfolding(crate::specs::Nodes::nodes_of))]
pub fn tree(alloc: Global, design: &Design) -> Result<Tree, Memory>
    ensures { IfOk result (λ tree. tree ≡ nodes_of design.now) }
{
    let root = Node {
        kind: NodeKind::Root,
        name: Name::of(alloc, &[])?,
        parent: 0,
        first_bin: 0,
        bins: design.bin_count(),
        weight: 1,
        type_weight: 1,
        goal: 100,
        at_least: 1,
        merge: false,
    };
    let mut nodes = Nodes::new(alloc, root)?;
    add_groups(alloc, &mut nodes, design.instances(), design.groups())?;
    Tree::of(alloc, nodes.into_vec())
}
