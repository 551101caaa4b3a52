//! Coverage of a node, by definition: each list of nodes is made anew where it is asked for.
ghost use Rattle.std.specs.Prelude.{◌≡◌, ℕ, ◌+◌, ◌++◌, ◌∷◌, [], ◌<◌, ◌≤◌, ◌^◌, ◌==◌, ◌&&◌, not, nat_lt, List, length, filter, count_by, slice_index, slice_index_or, false, cond, IfOk, OnOk};
ghost use Rattle.percent.specs.Millionths.{full, mean, sums};
ghost use Rattle.ucis_model.specs.Paths.{node_at};
ghost use Rattle.design_data.specs.Bins.{is_coverage as is_coverage_kind};
ghost use Rattle.cov_history.specs.Nodes.{is_bin as is_bin_kind, bin_nodes as bin_nodes_of, bins_under as bins_meant, children as children_of, kind_of_bin};
ghost use Rattle.cov_history.specs.Coverage as meant;
ghost use Rattle.cov_history.specs.Flags.{flagged};

use crate::facts::{count, flag, said};
use cov_ground::Memory;
use design_data::BinKind;
use percent::{Mean, item};
use std::alloc::Global;
use ucis_model::{Node, NodeKind};

/// Puts a place behind others, where a test holds.
pub fn push_if(places: &mut Vec<u32>, test: bool, place: u32) -> Result<(), Memory>
    ensures { OnOk result (places.new.items ≡ places.old.items ++ cond test (place ∷ []) []) }
{
    if test {
        places.push(place)?;
    }
    Ok(())
}

fn is_bin(kind: NodeKind) -> bool
    ensures { result ≡ is_bin_kind kind }
{
    matches!(kind, NodeKind::Bin(_))
}

fn is_coverage(kind: NodeKind) -> bool
    ensures { (nodes : List _) → (n : ℕ) → kind ≡ (node_at nodes n).kind
        → result ≡ is_coverage_kind (kind_of_bin nodes n) }
{
    matches!(kind, NodeKind::Bin(BinKind::CvgBin))
}

/// The nodes of all bins, in order.
pub fn bin_nodes(alloc: Global, nodes: &[Node]) -> Result<Vec<u32>, Memory>
    requires { length nodes.now < 2 ^ 32 }
    ensures bins { IfOk result (λ bins. bins.items ≡ bin_nodes_of nodes.now) }
    ensures few { IfOk result (λ bins. length bins.items < 2 ^ 32) }
{
    let mut bins = Vec::new(alloc);
    for place in 0..nodes.len() as u32 {
        let is_bin = is_bin(said(nodes, place).kind);
        push_if(&mut bins, is_bin, place)?;
    }
    Ok(bins)
}

/// Whether the node at a place is right below one.
fn is_below(nodes: &[Node], place: u32, above: u32) -> bool
    ensures { result ≡ (nat_lt 0 place && ((node_at nodes.now place).parent == above)) }
{
    place > 0 && said(nodes, place).parent == above
}

/// The nodes right below one, in order.
pub(crate) fn children(alloc: Global, nodes: &[Node], above: u32) -> Result<Vec<u32>, Memory>
    requires { length nodes.now < 2 ^ 32 }
    ensures { IfOk result (λ below. below.items ≡ children_of nodes.now above) }
{
    let mut below = Vec::new(alloc);
    for place in 0..nodes.len() as u32 {
        push_if(&mut below, is_below(nodes, place, above), place)?;
    }
    Ok(below)
}

/// Those of the bins, by their nodes, that are under a node.
pub fn bins_under<'a>(nodes: &[Node], bins: &'a [u32], above: u32) -> &'a [u32]
    requires { bins.now ≡ bin_nodes_of nodes.now }
    ensures bins { result.now ≡ bins_meant nodes.now above }
    ensures few { length result.now ≤ length bins.now }
{
    let said = said(nodes, above);
    let first = (said.first_bin as usize).min(bins.len());
    let rest = &bins[first..];
    let most = (said.bins as usize).min(rest.len());
    &rest[..most]
}

/// Whether a bin's node is live.
fn is_live(nodes: &[Node], excluded: &[bool], bin: u32) -> bool
    ensures { result ≡ meant.is_live nodes.now (flagged excluded.now) bin }
{
    is_coverage(said(nodes, bin).kind) && !flag(excluded, bin)
}

/// The live bins under a node.
pub(crate) fn live_under(
    alloc: Global,
    nodes: &[Node],
    excluded: &[bool],
    bins: &[u32],
    above: u32,
) -> Result<Vec<u32>, Memory>
    requires { bins.now ≡ bin_nodes_of nodes.now }
    ensures { IfOk result (λ live. live.items ≡ meant.live_under nodes.now (flagged excluded.now) above) }
{
    let mut live = Vec::new(alloc);
    for bin in bins_under(nodes, bins, above) {
        push_if(&mut live, is_live(nodes, excluded, *bin), *bin)?;
    }
    Ok(live)
}

/// Whether a bin is hit often enough.
fn is_covered(nodes: &[Node], counts: &[u64], bin: u32) -> bool
    ensures { result ≡ meant.is_covered nodes.now (slice_index counts.now) bin }
{
    let said = said(nodes, bin);
    u64::from(said.at_least) <= count(counts, said.first_bin)
}

/// How many of the bins are covered.
pub(crate) fn covered(nodes: &[Node], counts: &[u64], bins: &[u32]) -> u32
    requires { length bins.now < 2 ^ 32 }
    ensures is { result ≡ count_by (meant.is_covered nodes.now (slice_index counts.now)) bins.now }
    ensures few { result ≤ length bins.now }
{
    let mut covered = 0;
    for bin in bins {
        if is_covered(nodes, counts, *bin) {
            covered += 1;
        }
    }
    covered
}

/// The covered part of bins.
pub(crate) fn part(nodes: &[Node], counts: &[u64], bins: &[u32]) -> u32
    requires { length bins.now < 2 ^ 32 }
    ensures { result ≡ full (count_by (meant.is_covered nodes.now (slice_index counts.now)) bins.now) (length bins.now) }
{
    item(covered(nodes, counts, bins), bins.len() as u32)
}

/// Takes a pair into a mean, where a test holds.
pub(crate) fn add_if(mean: &mut Mean, test: bool, weight: u32, value: u32)
    requires { mean.old.pairs + 1 < 2 ^ 64 }
    ensures sums { (parts : List (ℕ × ℕ)) → mean.old ≡ sums parts
        → mean.new ≡ sums (parts ++ cond test ((weight, value) ∷ []) []) }
    ensures pairs { mean.new.pairs ≤ mean.old.pairs + 1 }
{
    if test {
        mean.add(weight, value);
    }
}

/// The coverage of an item, or of a bin.
#[tactic(auto, unfolding(crate::specs::Coverage::item_coverage))]
pub(crate) fn item_at(
    alloc: Global,
    nodes: &[Node],
    counts: &[u64],
    excluded: &[bool],
    bins: &[u32],
    place: u32,
) -> Result<u32, Memory>
    requires few { length bins.now < 2 ^ 32 }
    requires bins { bins.now ≡ bin_nodes_of nodes.now }
    ensures { IfOk result (λ part. part ≡ meant.item_coverage nodes.now (slice_index counts.now) (flagged excluded.now) place) }
{
    let live = live_under(alloc, nodes, excluded, bins, place)?;
    Ok(part(nodes, counts, live.as_slice()))
}

/// Whether a node has a live bin.
fn has_live(
    alloc: Global,
    nodes: &[Node],
    excluded: &[bool],
    bins: &[u32],
    place: u32,
) -> Result<bool, Memory>
    requires { bins.now ≡ bin_nodes_of nodes.now }
    ensures { IfOk result (λ has. has ≡ meant.has_live nodes.now (flagged excluded.now) place) }
{
    let live = live_under(alloc, nodes, excluded, bins, place)?;
    Ok(live.len() > 0)
}

/// The mean over those of the items that have a live bin.
fn mean_of_items(
    alloc: Global,
    nodes: &[Node],
    counts: &[u64],
    excluded: &[bool],
    bins: &[u32],
    items: &[u32],
) -> Result<u32, Memory>
    requires few { length bins.now < 2 ^ 32 }
    requires bins { bins.now ≡ bin_nodes_of nodes.now }
    ensures { IfOk result (λ part. part ≡ mean (meant.weighed nodes.now
        (meant.item_coverage nodes.now (slice_index counts.now) (flagged excluded.now))
        (filter (meant.has_live nodes.now (flagged excluded.now)) items.now))) }
{
    let mut mean = Mean::new();
    for item in items {
        let has = has_live(alloc, nodes, excluded, bins, *item)?;
        let part = item_at(alloc, nodes, counts, excluded, bins, *item)?;
        add_if(&mut mean, has, said(nodes, *item).weight, part);
    }
    Ok(mean.get())
}

/// The coverage of an instance.
#[tactic(auto, unfolding(crate::specs::Coverage::instance_coverage))]
pub(crate) fn instance_at(
    alloc: Global,
    nodes: &[Node],
    counts: &[u64],
    excluded: &[bool],
    bins: &[u32],
    place: u32,
) -> Result<u32, Memory>
    requires nodes { length nodes.now < 2 ^ 32 }
    requires few { length bins.now < 2 ^ 32 }
    requires bins { bins.now ≡ bin_nodes_of nodes.now }
    ensures { IfOk result (λ part. part ≡ meant.instance_coverage nodes.now (slice_index counts.now) (flagged excluded.now) place) }
{
    let items = children(alloc, nodes, place)?;
    mean_of_items(alloc, nodes, counts, excluded, bins, items.as_slice())
}

/// The mean over those of the instances that aren't excluded.
fn mean_of_instances(
    alloc: Global,
    nodes: &[Node],
    counts: &[u64],
    excluded: &[bool],
    bins: &[u32],
    instances: &[u32],
) -> Result<u32, Memory>
    requires nodes { length nodes.now < 2 ^ 32 }
    requires few { length bins.now < 2 ^ 32 }
    requires bins { bins.now ≡ bin_nodes_of nodes.now }
    ensures { IfOk result (λ part. part ≡ mean (meant.weighed nodes.now
        (meant.instance_coverage nodes.now (slice_index counts.now) (flagged excluded.now))
        (filter (λ m. not (flagged excluded.now m)) instances.now))) }
{
    let mut mean = Mean::new();
    for inst in instances {
        let part = instance_at(alloc, nodes, counts, excluded, bins, *inst)?;
        let is_in = !flag(excluded, *inst);
        add_if(&mut mean, is_in, said(nodes, *inst).weight, part);
    }
    Ok(mean.get())
}

/// The coverage of a type whose instances aren't merged.
#[tactic(auto, unfolding(crate::specs::Coverage::plain_coverage))]
pub(crate) fn plain_at(
    alloc: Global,
    nodes: &[Node],
    counts: &[u64],
    excluded: &[bool],
    bins: &[u32],
    place: u32,
) -> Result<u32, Memory>
    requires nodes { length nodes.now < 2 ^ 32 }
    requires few { length bins.now < 2 ^ 32 }
    requires bins { bins.now ≡ bin_nodes_of nodes.now }
    ensures { IfOk result (λ part. part ≡ meant.plain_coverage nodes.now (slice_index counts.now) (flagged excluded.now) place) }
{
    let instances = children(alloc, nodes, place)?;
    mean_of_instances(alloc, nodes, counts, excluded, bins, instances.as_slice())
}
