//! Coverage of any node, by definition.
ghost use Rattle.std.specs.Prelude.{◌≡◌, ℕ, ◌<◌, ◌^◌, not, length, filter, slice_index, IfOk};
ghost use Rattle.percent.specs.Millionths.{mean};
ghost use Rattle.cov_history.specs.Nodes.{bin_nodes as bin_nodes_of};
ghost use Rattle.cov_history.specs.Coverage as meant;
ghost use Rattle.cov_history.specs.Flags.{flagged};

use crate::covering::{add_if, bin_nodes, children, instance_at, item_at, plain_at};
use crate::facts::{flag, said};
use crate::merging::merged_at;
use cov_ground::Memory;
use percent::Mean;
use std::alloc::Global;
use ucis_model::{Node, NodeKind};

/// The coverage of a type.
#[tactic(auto, unfolding(crate::specs::Coverage::type_coverage))]
fn type_at(
    alloc: Global,
    nodes: &[Node],
    counts: &[u64],
    excluded: &[bool],
    bins: &[u32],
    place: u32,
) -> Result<u32, Memory>
    requires nodes { length nodes.now < 2 ^ 32 }
    requires few { length bins.now < 2 ^ 32 }
    requires bins { bins.now ≡ bin_nodes_of nodes.now }
    ensures { IfOk result (λ part. part ≡ meant.type_coverage nodes.now (slice_index counts.now) (flagged excluded.now) place) }
{
    if said(nodes, place).merge {
        let part = merged_at(alloc, nodes, counts, excluded, bins, place)?;
        return Ok(part);
    }
    let part = plain_at(alloc, nodes, counts, excluded, bins, place)?;
    Ok(part)
}

/// The mean over those of the types that aren't excluded.
fn mean_of_types(
    alloc: Global,
    nodes: &[Node],
    counts: &[u64],
    excluded: &[bool],
    bins: &[u32],
    types: &[u32],
) -> Result<u32, Memory>
    requires nodes { length nodes.now < 2 ^ 32 }
    requires few { length bins.now < 2 ^ 32 }
    requires bins { bins.now ≡ bin_nodes_of nodes.now }
    ensures { IfOk result (λ part. part ≡ mean (meant.weighed nodes.now
        (meant.type_coverage nodes.now (slice_index counts.now) (flagged excluded.now))
        (filter (λ m. not (flagged excluded.now m)) types.now))) }
{
    let mut mean = Mean::new();
    for group in types {
        let part = type_at(alloc, nodes, counts, excluded, bins, *group)?;
        let is_in = !flag(excluded, *group);
        add_if(&mut mean, is_in, said(nodes, *group).weight, part);
    }
    Ok(mean.get())
}

/// The coverage of the root.
#[tactic(auto, unfolding(crate::specs::Coverage::root_coverage))]
fn root_at(
    alloc: Global,
    nodes: &[Node],
    counts: &[u64],
    excluded: &[bool],
    bins: &[u32],
    place: u32,
) -> Result<u32, Memory>
    requires nodes { length nodes.now < 2 ^ 32 }
    requires few { length bins.now < 2 ^ 32 }
    requires bins { bins.now ≡ bin_nodes_of nodes.now }
    ensures { IfOk result (λ part. part ≡ meant.root_coverage nodes.now (slice_index counts.now) (flagged excluded.now) place) }
{
    let types = children(alloc, nodes, place)?;
    mean_of_types(alloc, nodes, counts, excluded, bins, types.as_slice())
}

/// The coverage of a node of this kind.
fn coverage_by(
    alloc: Global,
    nodes: &[Node],
    counts: &[u64],
    excluded: &[bool],
    bins: &[u32],
    place: u32,
    kind: NodeKind,
) -> Result<u32, Memory>
    requires nodes { length nodes.now < 2 ^ 32 }
    requires few { length bins.now < 2 ^ 32 }
    requires bins { bins.now ≡ bin_nodes_of nodes.now }
    ensures { IfOk result (λ part. part ≡ meant.coverage_by kind nodes.now (slice_index counts.now) (flagged excluded.now) place) }
{
    match kind {
        NodeKind::Root => root_at(alloc, nodes, counts, excluded, bins, place),
        NodeKind::CoverGroup => type_at(alloc, nodes, counts, excluded, bins, place),
        NodeKind::CoverInstance => instance_at(alloc, nodes, counts, excluded, bins, place),
        NodeKind::CoverPoint => item_at(alloc, nodes, counts, excluded, bins, place),
        NodeKind::Cross => item_at(alloc, nodes, counts, excluded, bins, place),
        NodeKind::Bin(_) => item_at(alloc, nodes, counts, excluded, bins, place),
    }
}

/// The coverage of a node, in millionths, by definition: from the counts of the bins, each at its number, and a flag for
/// each node that is excluded (IEEE 1800-2017, 19.11). Lists are made anew and names compared one by one, so it serves
/// small designs alone.
#[tactic(auto, unfolding(crate::specs::Coverage::coverage))]
pub fn coverage_by_definition(
    alloc: Global,
    nodes: &[Node],
    counts: &[u64],
    excluded: &[bool],
    place: u32,
) -> Result<u32, Memory>
    requires { length nodes.now < 2 ^ 32 }
    ensures { IfOk result (λ part. part
        ≡ meant.coverage nodes.now (slice_index counts.now) (flagged excluded.now) place) }
{
    let bins = bin_nodes(alloc, nodes)?;
    let kind = said(nodes, place).kind;
    let part = coverage_by(alloc, nodes, counts, excluded, bins.as_slice(), place, kind)?;
    Ok(part)
}
