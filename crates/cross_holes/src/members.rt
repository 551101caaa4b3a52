//! The members of bins, and how many bins have each.
ghost use Rattle.std.specs.Prelude.{◌≡◌, ◌+◌, ◌<◌, ◌^◌, ℕ, length, slice_index, IfOk};
ghost use Rattle.ucis_model.specs.Paths.{node_at};
ghost use Rattle.cross_holes.specs.Projected.{members_of as members_meant, member_on as member_meant};
ghost use Rattle.cross_holes.specs.Counts.{counted, AreCounts};

use cov_ground::Memory;
use design_data::{BinRule, ItemInfo};
use std::alloc::Global;
use ucis_model::Node;

fn members_of(rule: &BinRule) -> &[u32]
    ensures { result.now ≡ members_meant rule.now }
{
    match rule {
        BinRule::Product(members) => members.as_slice(),
        _ => &[],
    }
}

/// The number of the bin that a node is; 0 of a node that there isn't.
fn number_of(nodes: &[Node], node: u32) -> u32
    ensures { result ≡ (node_at nodes.now node).first_bin }
{
    match nodes.get(node as usize) {
        Some(node) => node.first_bin,
        None => 0,
    }
}

/// The member on an axis of the bin of an item that a node is.
pub(crate) fn member_on(nodes: &[Node], item: &ItemInfo, axis: usize, node: u32) -> Option<u32>
    ensures { result ≡ member_meant nodes.now item.now axis node }
{
    let place = number_of(nodes, node).saturating_sub(item.first_bin);
    let Some(bin) = item.bins.as_slice().get(place as usize) else {
        return None;
    };
    members_of(&bin.rule).get(axis).copied()
}

/// The member on an axis of one of the bins.
fn member_at(
    nodes: &[Node],
    item: &ItemInfo,
    axis: usize,
    bins: &[u32],
    place: usize,
) -> Option<u32>
    requires { place < length bins.now }
    ensures { result ≡ member_meant nodes.now item.now axis (slice_index bins.now place) }
{
    member_on(nodes, item, axis, bins[place])
}

/// Counts a bin that has this member.
fn count_member(counts: &mut Vec<u64>, member: Option<u32>)
    requires { (member : ℕ) → member < length counts.old.items → slice_index counts.old.items member + 1 < 2 ^ 64 }
    ensures { counts.new.items ≡ counted member counts.old.items }
{
    let Some(member) = member else {
        return;
    };
    if (member as usize) < counts.len() {
        counts[member as usize] += 1;
    }
}

/// How many of the bins have each of so many members of an axis.
pub(crate) fn member_counts(
    alloc: Global,
    nodes: &[Node],
    item: &ItemInfo,
    axis: usize,
    members: usize,
    bins: &[u32],
) -> Result<Vec<u64>, Memory>
    ensures { IfOk result (λ counts. AreCounts (member_meant nodes.now item.now axis) members bins.now counts.items) }
{
    let mut counts = vec![in alloc; 0u64; members]?;
    for place in 0..bins.len() {
        let member = member_at(nodes, item, axis, bins, place);
        count_member(&mut counts, member);
    }
    Ok(counts)
}
