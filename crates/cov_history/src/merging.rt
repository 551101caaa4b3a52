//! Coverage of a type whose instances are merged, by definition: bins of one item name and one bin name are one bin.
ghost use Rattle.std.specs.Prelude.{◌≡◌, ℕ, ◌+◌, ◌*◌, ◌++◌, ◌∷◌, [], ◌<◌, ◌≤◌, ◌^◌, List, length, map, max, fold, count_by, sum_by, slice_index, if◌then◌else◌, bytes_eq, IfOk, OnOk};
ghost use Rattle.std.specs.List.{list_any};
ghost use Rattle.percent.specs.Millionths.{mean};
ghost use Rattle.cov_history.specs.Nodes.{bin_nodes as bin_nodes_of};
ghost use Rattle.cov_history.specs.Coverage as meant;
ghost use Rattle.cov_history.specs.Flags.{flagged};

use crate::covering::{add_if, live_under, push_if};
use crate::facts::{count, name, said};
use cov_ground::Memory;
use cov_tree::Name;
use percent::{Mean, item};
use std::alloc::Global;
use ucis_model::Node;

/// The name of a bin's item.
fn item_name(nodes: &[Node], bin: u32) -> &[u8]
    ensures { result.now ≡ meant.item_name nodes.now bin }
{
    name(nodes, said(nodes, bin).parent)
}

/// The names of the bins' items.
fn item_names(alloc: Global, nodes: &[Node], bins: &[u32]) -> Result<Vec<Name>, Memory>
    ensures { IfOk result (λ names. names.items ≡ map (meant.item_name nodes.now) bins.now) }
{
    let mut names = Vec::new(alloc);
    for bin in bins {
        let name = Name::of(alloc, item_name(nodes, *bin))?;
        names.push(name)?;
    }
    Ok(names)
}

/// The names of the bins.
fn bin_names(alloc: Global, nodes: &[Node], bins: &[u32]) -> Result<Vec<Name>, Memory>
    ensures { IfOk result (λ names. names.items ≡ map (meant.bin_name nodes.now) bins.now) }
{
    let mut names = Vec::new(alloc);
    for bin in bins {
        let name = Name::of(alloc, name(nodes, *bin))?;
        names.push(name)?;
    }
    Ok(names)
}

/// Whether a name is among these.
fn has_name(names: &[Name], name: &[u8]) -> bool
    ensures { result ≡ list_any (bytes_eq name.now) names.now }
{
    for other in names {
        if name == other.as_slice() {
            return true;
        }
    }
    false
}

/// Puts a name behind others, unless it is there.
fn put_once(alloc: Global, names: &mut Vec<Name>, name: &[u8]) -> Result<(), Memory>
    ensures { OnOk result (names.new.items ≡ (if list_any (bytes_eq name.now) names.old.items then names.old.items else names.old.items ++ name.now ∷ [])) }
{
    if has_name(names.as_slice(), name) {
        return Ok(());
    }
    names.push(Name::of(alloc, name)?)?;
    Ok(())
}

/// Each name once.
fn once(alloc: Global, names: &[Name]) -> Result<Vec<Name>, Memory>
    ensures { IfOk result (λ once. once.items ≡ meant.once names.now) }
{
    let mut once = Vec::new(alloc);
    for name in names {
        put_once(alloc, &mut once, name.as_slice())?;
    }
    Ok(once)
}

/// Whether a bin's item has the name.
fn has_item_name(nodes: &[Node], bin: u32, name: &[u8]) -> bool
    ensures { result ≡ bytes_eq (meant.item_name nodes.now bin) name.now }
{
    item_name(nodes, bin) == name
}

/// Whether a bin has the name.
fn has_bin_name(nodes: &[Node], bin: u32, own: &[u8]) -> bool
    ensures { result ≡ bytes_eq (meant.bin_name nodes.now bin) own.now }
{
    name(nodes, bin) == own
}

/// Those of the bins whose item has the name.
fn of_item(alloc: Global, nodes: &[Node], name: &[u8], bins: &[u32]) -> Result<Vec<u32>, Memory>
    ensures { IfOk result (λ own. own.items ≡ meant.named (meant.item_name nodes.now) name.now bins.now) }
{
    let mut own = Vec::new(alloc);
    for bin in bins {
        push_if(&mut own, has_item_name(nodes, *bin, name), *bin)?;
    }
    Ok(own)
}

/// Those of the bins that have the name.
fn of_name(alloc: Global, nodes: &[Node], name: &[u8], bins: &[u32]) -> Result<Vec<u32>, Memory>
    ensures { IfOk result (λ own. own.items ≡ meant.named (meant.bin_name nodes.now) name.now bins.now) }
{
    let mut own = Vec::new(alloc);
    for bin in bins {
        push_if(&mut own, has_bin_name(nodes, *bin, name), *bin)?;
    }
    Ok(own)
}

/// The greatest `at_least` of the bins.
fn greatest(nodes: &[Node], bins: &[u32]) -> u32
    ensures { result ≡ fold max 0 (map (meant.at_least nodes.now) bins.now) }
{
    let mut greatest = 0;
    for bin in bins {
        greatest = larger(greatest, said(nodes, *bin).at_least);
    }
    greatest
}

fn larger(a: u32, b: u32) -> u32
    ensures { result ≡ max a b }
{
    a.max(b)
}

/// The counts of the bins together.
fn total(nodes: &[Node], counts: &[u64], bins: &[u32]) -> u128
    requires { length bins.now < 2 ^ 32 }
    ensures { result ≡ sum_by (meant.count_at nodes.now (slice_index counts.now)) bins.now }
{
    let mut total = 0u128;
    for bin in bins {
        total += u128::from(count(counts, said(nodes, *bin).first_bin));
    }
    total
}

/// Whether the bins are covered as one.
fn is_covered_as_one(nodes: &[Node], counts: &[u64], bins: &[u32]) -> bool
    requires { length bins.now < 2 ^ 32 }
    ensures { result ≡ meant.is_covered_as_one nodes.now (slice_index counts.now) bins.now }
{
    u128::from(greatest(nodes, bins)) <= total(nodes, counts, bins)
}

/// The weight of the bins' item in its type.
fn type_weight(nodes: &[Node], bins: &[u32]) -> u32
    ensures { result ≡ meant.type_weight nodes.now bins.now }
{
    if bins.is_empty() {
        return 0;
    }
    said(nodes, said(nodes, bins[0]).parent).type_weight
}

/// Whether those of the bins that have the name are covered as one.
#[tactic(auto, using(crate::proofs::Naming::named_short))]
fn is_name_covered(
    alloc: Global,
    nodes: &[Node],
    counts: &[u64],
    bins: &[u32],
    name: &[u8],
) -> Result<bool, Memory>
    requires { length bins.now < 2 ^ 32 }
    ensures { IfOk result (λ covered. covered ≡ meant.is_covered_as_one nodes.now (slice_index counts.now) (meant.named (meant.bin_name nodes.now) name.now bins.now)) }
{
    let own = of_name(alloc, nodes, name, bins)?;
    Ok(is_covered_as_one(nodes, counts, own.as_slice()))
}

/// How many of the names are those of bins that are covered as one.
fn names_covered(
    alloc: Global,
    nodes: &[Node],
    counts: &[u64],
    bins: &[u32],
    names: &[Name],
) -> Result<u32, Memory>
    requires bins { length bins.now < 2 ^ 32 }
    requires names { length names.now < 2 ^ 32 }
    ensures is { IfOk result (λ covered. covered ≡ count_by (λ name. meant.is_covered_as_one nodes.now (slice_index counts.now) (meant.named (meant.bin_name nodes.now) name bins.now)) names.now) }
    ensures few { IfOk result (λ covered. covered ≤ length names.now) }
{
    let mut covered = 0;
    for name in names {
        let is_covered = is_name_covered(alloc, nodes, counts, bins, name.as_slice())?;
        covered += u32::from(is_covered);
    }
    Ok(covered)
}

/// The coverage of items of one name as one, which have these live bins.
fn merged_item(alloc: Global, nodes: &[Node], counts: &[u64], bins: &[u32]) -> Result<u32, Memory>
    requires { length bins.now < 2 ^ 32 }
    ensures { IfOk result (λ part. part ≡ meant.merged_item nodes.now (slice_index counts.now) bins.now) }
{
    let all = bin_names(alloc, nodes, bins)?;
    let names = once(alloc, all.as_slice())?;
    let covered = names_covered(alloc, nodes, counts, bins, names.as_slice())?;
    Ok(item(covered, names.len() as u32))
}

/// The coverage of the items of this name as one, among live bins.
fn merged_name(
    alloc: Global,
    nodes: &[Node],
    counts: &[u64],
    bins: &[u32],
    name: &[u8],
) -> Result<(u32, u32), Memory>
    requires { length bins.now < 2 ^ 32 }
    ensures weight { IfOk result (λ pair. pair.0 ≡ meant.type_weight nodes.now (meant.named (meant.item_name nodes.now) name.now bins.now)) }
    ensures part { IfOk result (λ pair. pair.1 ≡ meant.merged_item nodes.now (slice_index counts.now) (meant.named (meant.item_name nodes.now) name.now bins.now)) }
{
    let own = of_item(alloc, nodes, name, bins)?;
    let part = merged_item(alloc, nodes, counts, own.as_slice())?;
    Ok((type_weight(nodes, own.as_slice()), part))
}

/// The mean over items' names.
fn mean_of_names(
    alloc: Global,
    nodes: &[Node],
    counts: &[u64],
    bins: &[u32],
    names: &[Name],
) -> Result<u32, Memory>
    requires { length bins.now < 2 ^ 32 }
    ensures { IfOk result (λ part. part ≡ mean (map (λ name. (meant.type_weight nodes.now (meant.named (meant.item_name nodes.now) name bins.now), meant.merged_item nodes.now (slice_index counts.now) (meant.named (meant.item_name nodes.now) name bins.now))) names.now)) }
{
    let mut mean = Mean::new();
    for name in names {
        let pair = merged_name(alloc, nodes, counts, bins, name.as_slice())?;
        add_if(&mut mean, true, pair.0, pair.1);
    }
    Ok(mean.get())
}

/// The coverage of a type whose instances are merged.
pub(crate) fn merged_at(
    alloc: Global,
    nodes: &[Node],
    counts: &[u64],
    excluded: &[bool],
    bins: &[u32],
    place: u32,
) -> Result<u32, Memory>
    requires few { length bins.now < 2 ^ 32 }
    requires bins { bins.now ≡ bin_nodes_of nodes.now }
    ensures { IfOk result (λ part. part ≡ meant.merged_coverage nodes.now (slice_index counts.now) (flagged excluded.now) place) }
{
    let live = live_under(alloc, nodes, excluded, bins, place)?;
    let all = item_names(alloc, nodes, live.as_slice())?;
    let names = once(alloc, all.as_slice())?;
    let part = mean_of_names(alloc, nodes, counts, live.as_slice(), names.as_slice())?;
    Ok(part)
}
