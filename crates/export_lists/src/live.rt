//! Live bins, and those of them that are holes.
ghost use Rattle.std.specs.Prelude.{◌≡◌, ◌<◌, ◌++◌, ◌∷◌, [], All, length, filter, not, if◌then◌else◌, IfOk, OnOk};
ghost use Rattle.cov_history.specs.Coverage.{is_live as live_meant, is_covered as covered_meant, live_under as under_meant};
ghost use Rattle.merge_store.specs.Now.{nodes_now, count_now, excluded_now};

use cov_base::Memory;
use merge_store::Store;
use std::alloc::Global;
use store_views::{BinState, bins_under, state_of};

/// Whether the bin that a node is counts for coverage and isn't excluded.
fn is_live(store: &Store, node: u32) -> Result<bool, Memory>
    requires { node < length (nodes_now store.now) }
    ensures { IfOk result (λ live. live ≡ live_meant (nodes_now store.now) (excluded_now store.now) node) }
{
    match state_of(store, node)? {
        BinState::Covered | BinState::Hole => Ok(true),
        BinState::Out | BinState::Uncounted => Ok(false),
    }
}

/// Whether the bin that a node is was hit as often as it has to be.
fn is_covered(store: &Store, node: u32) -> bool
    requires { node < length (nodes_now store.now) }
    ensures { result ≡ covered_meant (nodes_now store.now) (count_now store.now) node }
{
    store.nodes()[node as usize].at_least as u64 <= store.count(node)
}

fn add_live(live: &mut Vec<u32>, store: &Store, node: u32) -> Result<(), Memory>
    requires { node < length (nodes_now store.now) }
    ensures { OnOk result (live.new.items ≡ live.old.items
        ++ (if live_meant (nodes_now store.now) (excluded_now store.now) node then node ∷ [] else [])) }
{
    if is_live(store, node)? {
        live.push(node)?;
    }
    Ok(())
}

/// The live ones of these bins, in order.
fn live_among(alloc: Global, store: &Store, bins: &[u32]) -> Result<Vec<u32>, Memory>
    requires { All (λ n. n < length (nodes_now store.now)) bins.now }
    ensures { IfOk result (λ live. live.items
        ≡ filter (live_meant (nodes_now store.now) (excluded_now store.now)) bins.now) }
{
    let mut live = Vec::new(alloc);
    for bin in bins {
        add_live(&mut live, store, *bin)?;
    }
    Ok(live)
}

/// The live bins under a node, in order.
pub(crate) fn live_under(alloc: Global, store: &Store, node: u32) -> Result<Vec<u32>, Memory>
    ensures live { IfOk result (λ live. live.items ≡ under_meant (nodes_now store.now) (excluded_now store.now) node) }
    ensures inside { IfOk result (λ live. All (λ n. n < length (nodes_now store.now)) live.items) }
{
    let bins = bins_under(store, node);
    let live = live_among(alloc, store, bins)?;
    Ok(live)
}

fn add_hole(holes: &mut Vec<u32>, store: &Store, node: u32) -> Result<(), Memory>
    requires { node < length (nodes_now store.now) }
    ensures { OnOk result (holes.new.items ≡ holes.old.items
        ++ (if not (covered_meant (nodes_now store.now) (count_now store.now) node) then node ∷ [] else [])) }
{
    if !is_covered(store, node) {
        holes.push(node)?;
    }
    Ok(())
}

/// The holes among live bins, in order.
fn holes_of(alloc: Global, store: &Store, live: &[u32]) -> Result<Vec<u32>, Memory>
    requires { All (λ n. n < length (nodes_now store.now)) live.now }
    ensures { IfOk result (λ holes. holes.items
        ≡ filter (λ m. not (covered_meant (nodes_now store.now) (count_now store.now) m)) live.now) }
{
    let mut holes = Vec::new(alloc);
    for node in live {
        add_hole(&mut holes, store, *node)?;
    }
    Ok(holes)
}

/// The same, each of which is a node.
pub(crate) fn holes_among(alloc: Global, store: &Store, live: &[u32]) -> Result<Vec<u32>, Memory>
    requires { All (λ n. n < length (nodes_now store.now)) live.now }
    ensures holes { IfOk result (λ holes. holes.items
        ≡ filter (λ m. not (covered_meant (nodes_now store.now) (count_now store.now) m)) live.now) }
    ensures inside { IfOk result (λ holes. All (λ n. n < length (nodes_now store.now)) holes.items) }
{
    let holes = holes_of(alloc, store, live)?;
    Ok(holes)
}
