//! The lines of all bins.
ghost use Rattle.std.specs.Prelude.{◌≡◌, ◌<◌, ◌++◌, length, IfOk, OnOk};
ghost use Rattle.merge_store.specs.Now.{nodes_now, count_now, excluded_now};
ghost use Rattle.merge_store.specs.Stores.{opening_of, entries_of};
ghost use Rattle.export_lists.specs.Bins.{line_of_bin, bins_text};

use crate::lines;
use cov_base::Memory;
use merge_store::Store;
use std::alloc::Global;
use store_views::{bins_under, kind_of, state_of};

/// The line of the bin that a node is.
fn append_bin(text: &mut Vec<u8>, store: &Store, node: u32) -> Result<(), Memory>
    requires { node < length (nodes_now store.now) }
    ensures { OnOk result (text.new.items
        ≡ text.old.items ++ line_of_bin (nodes_now store.now) (count_now store.now) (excluded_now store.now) node) }
{
    let state = state_of(store, node)?;
    let path = store.path_text(node)?;
    let number = store.nodes()[node as usize].first_bin;
    let count = store.count(node);
    lines::append_bin(
        text,
        number,
        kind_of(store, node),
        count,
        state,
        path.as_slice(),
    )?;
    Ok(())
}

/// A line for each bin of a store in the order of their numbers: its number, the word of its kind, how often it was hit, how
/// it stands and its path. The time is linear in the bins.
#[tactic(auto, unfolding(crate::specs::Bins::bins_text))]
pub fn bins_lines(alloc: Global, store: &Store) -> Result<Vec<u8>, Memory>
    ensures { IfOk result (λ text. text.items ≡ bins_text (opening_of store.now) (entries_of store.now)) }
{
    let mut text = Vec::new(alloc);
    for bin in bins_under(store, 0) {
        append_bin(&mut text, store, *bin)?;
    }
    Ok(text)
}
