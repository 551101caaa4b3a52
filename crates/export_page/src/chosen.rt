//! Bins and types that are chosen among others, in order.
ghost use Rattle.std.specs.Prelude.{◌≡◌, ◌<◌, ◌++◌, ◌∷◌, [], All, length, filter, not, take, if◌then◌else◌, IfOk, OnOk};
ghost use Rattle.cov_history.specs.Nodes.{bins_under as under_meant};
ghost use Rattle.merge_store.specs.Now.{nodes_now, count_now, excluded_now};
ghost use Rattle.merge_store.specs.Stores.{opening_of, entries_of};
ghost use Rattle.store_views.specs.Views.{rows_at, is_illegal_hit as illegal_meant};
ghost use Rattle.export_page.specs.Views.{is_met as met_meant, is_hole as hole_meant, most_bins};
ghost use Rattle.export_page.specs.Page.{illegal_at, out_at, holes_among as among_meant};

use cov_ground::Memory;
use merge_store::Store;
use std::alloc::Global;
use store_views::{BinState, bins_under, is_illegal_hit, state_of};

/// The most bins of an item that stand on a page, and the most holes of one that has more.
pub(crate) const MOST_BINS: usize = 1024;

/// Adds a node where it is chosen.
fn push_if(nodes: &mut Vec<u32>, node: u32, is_chosen: bool) -> Result<(), Memory>
    ensures { OnOk result (nodes.new.items ≡ nodes.old.items ++ (if is_chosen then node ∷ [] else [])) }
{
    if is_chosen {
        nodes.push(node)?;
    }
    Ok(())
}

/// Whether a bin is live and was hit less often than it has to be.
fn is_hole(store: &Store, node: u32) -> Result<bool, Memory>
    requires { node < length (nodes_now store.now) }
    ensures { IfOk result (λ hole. hole
        ≡ hole_meant (nodes_now store.now) (count_now store.now) (excluded_now store.now) node) }
{
    match state_of(store, node)? {
        BinState::Hole => Ok(true),
        BinState::Covered | BinState::Out | BinState::Uncounted => Ok(false),
    }
}

/// Whether a node, or one above it, is excluded.
fn is_out(store: &Store, node: u32) -> Result<bool, Memory>
    ensures { IfOk result (λ out. out ≡ excluded_now store.now node) }
{
    let row = store.cover_row(node)?;
    Ok(row.excluded)
}

/// Whether a node isn't excluded, and its goal is met.
fn is_met(store: &Store, node: u32) -> Result<bool, Memory>
    ensures { IfOk result (λ met. met ≡ met_meant (rows_at (opening_of store.now) (entries_of store.now)) node) }
{
    let row = store.cover_row(node)?;
    Ok(row.met && !row.excluded)
}

/// The holes among bins.
fn holes_of(alloc: Global, store: &Store, bins: &[u32]) -> Result<Vec<u32>, Memory>
    requires { All (λ n. n < length (nodes_now store.now)) bins.now }
    ensures { IfOk result (λ holes. holes.items
        ≡ among_meant (opening_of store.now) (entries_of store.now) bins.now) }
{
    let mut holes = Vec::new(alloc);
    for bin in bins {
        push_if(&mut holes, *bin, is_hole(store, *bin)?)?;
    }
    Ok(holes)
}

/// The same, each of which is a node.
pub(crate) fn holes_among(alloc: Global, store: &Store, bins: &[u32]) -> Result<Vec<u32>, Memory>
    requires { All (λ n. n < length (nodes_now store.now)) bins.now }
    ensures holes { IfOk result (λ holes. holes.items
        ≡ among_meant (opening_of store.now) (entries_of store.now) bins.now) }
    ensures inside { IfOk result (λ holes. All (λ n. n < length (nodes_now store.now)) holes.items) }
{
    let holes = holes_of(alloc, store, bins)?;
    Ok(holes)
}

/// Of nodes as many as stand on a page.
#[tactic(auto, using(crate::proofs::Inside::all_shown))]
pub(crate) fn shown(nodes: &[u32]) -> &[u32]
    ensures { result.now ≡ take most_bins nodes.now }
{
    if nodes.len() <= MOST_BINS {
        return nodes;
    }
    &nodes[..MOST_BINS]
}

/// The illegal ones among bins that were hit.
fn illegal_among(alloc: Global, store: &Store, bins: &[u32]) -> Result<Vec<u32>, Memory>
    requires { All (λ n. n < length (nodes_now store.now)) bins.now }
    ensures { IfOk result (λ hit. hit.items
        ≡ filter (illegal_meant (nodes_now store.now) (count_now store.now)) bins.now) }
{
    let mut hit = Vec::new(alloc);
    for bin in bins {
        push_if(&mut hit, *bin, is_illegal_hit(store, *bin))?;
    }
    Ok(hit)
}

/// The illegal bins that were hit, each of which is a node.
pub(crate) fn illegal_bins(alloc: Global, store: &Store) -> Result<Vec<u32>, Memory>
    ensures illegal { IfOk result (λ hit. hit.items ≡ illegal_at (opening_of store.now) (entries_of store.now)) }
    ensures inside { IfOk result (λ hit. All (λ n. n < length (nodes_now store.now)) hit.items) }
{
    let bins = bins_under(store, 0);
    let hit = illegal_among(alloc, store, bins)?;
    Ok(hit)
}

/// The excluded ones among bins.
fn out_among(alloc: Global, store: &Store, bins: &[u32]) -> Result<Vec<u32>, Memory>
    ensures { IfOk result (λ out. out.items ≡ filter (excluded_now store.now) bins.now) }
{
    let mut out = Vec::new(alloc);
    for bin in bins {
        push_if(&mut out, *bin, is_out(store, *bin)?)?;
    }
    Ok(out)
}

/// The bins that are excluded.
pub(crate) fn out_bins(alloc: Global, store: &Store) -> Result<Vec<u32>, Memory>
    ensures { IfOk result (λ out. out.items ≡ out_at (opening_of store.now) (entries_of store.now)) }
{
    let out = out_among(alloc, store, bins_under(store, 0))?;
    Ok(out)
}

/// Those of types that aren't excluded.
pub(crate) fn live_types(alloc: Global, store: &Store, types: &[u32]) -> Result<Vec<u32>, Memory>
    ensures { IfOk result (λ live. live.items ≡ filter (λ n. not (excluded_now store.now n)) types.now) }
{
    let mut live = Vec::new(alloc);
    for group in types {
        push_if(&mut live, *group, !is_out(store, *group)?)?;
    }
    Ok(live)
}

/// Those of types that aren't excluded and whose goal is met.
pub(crate) fn met_types(alloc: Global, store: &Store, types: &[u32]) -> Result<Vec<u32>, Memory>
    ensures { IfOk result (λ met. met.items
        ≡ filter (met_meant (rows_at (opening_of store.now) (entries_of store.now))) types.now) }
{
    let mut met = Vec::new(alloc);
    for group in types {
        push_if(&mut met, *group, is_met(store, *group)?)?;
    }
    Ok(met)
}
