//! The bins of an item.
ghost use Rattle.std.specs.Prelude.{◌≡◌, ◌++◌, IfOk, OnOk};
ghost use Rattle.markup.specs.Trees.{markup_text};
ghost use Rattle.merge_store.specs.Now.{excluded_now};
ghost use Rattle.merge_store.specs.Stores.{opening_of, entries_of};
ghost use Rattle.export_ucis.specs.Nodes.{bin_of_point, bin_of_cross, bins_of_point, bins_of_cross};

use const_eval::Typ;
use cov_base::Memory;
use design_data::BinInfo;
use merge_store::Store;
use std::alloc::Global;
use ucis_elements::{append_cross_bin, append_point_bin};

/// Whether a node, or one above it, is excluded.
pub(crate) fn is_excluded(store: &Store, node: u32) -> Result<bool, Memory>
    ensures { IfOk result (λ excluded. excluded ≡ excluded_now store.now node) }
{
    let row = store.cover_row(node)?;
    Ok(row.excluded)
}

/// A bin of a point of this type, which a node is.
#[tactic(auto, unfolding(crate::specs::Nodes::bin_of_point))]
fn append_bin_of_point(
    alloc: Global,
    text: &mut Vec<u8>,
    store: &Store,
    typ: Typ,
    bin: &BinInfo,
    node: u32,
) -> Result<(), Memory>
    ensures { OnOk result (text.new.items ≡ text.old.items
        ++ markup_text (bin_of_point (opening_of store.now) (entries_of store.now) typ bin.now node)) }
{
    let excluded = is_excluded(store, node)?;
    let count = store.count(node);
    append_point_bin(alloc, text, typ, node, excluded, count, bin)
}

/// A bin of a cross, which a node is.
#[tactic(auto, unfolding(crate::specs::Nodes::bin_of_cross))]
fn append_bin_of_cross(
    text: &mut Vec<u8>,
    store: &Store,
    bin: &BinInfo,
    node: u32,
) -> Result<(), Memory>
    ensures { OnOk result (text.new.items ≡ text.old.items
        ++ markup_text (bin_of_cross (opening_of store.now) (entries_of store.now) bin.now node)) }
{
    let excluded = is_excluded(store, node)?;
    let count = store.count(node);
    append_cross_bin(text, node, excluded, count, bin)
}

/// The bins of a point of this type, which are these nodes.
pub(crate) fn append_bins_of_point(
    alloc: Global,
    text: &mut Vec<u8>,
    store: &Store,
    typ: Typ,
    bins: &[BinInfo],
    nodes: &[u32],
) -> Result<(), Memory>
    ensures { OnOk result (text.new.items ≡ text.old.items
        ++ markup_text (bins_of_point (opening_of store.now) (entries_of store.now) typ bins.now nodes.now)) }
{
    for (bin, node) in bins.iter().zip(nodes) {
        append_bin_of_point(alloc, text, store, typ, bin, *node)?;
    }
    Ok(())
}

/// The bins of a cross, which are these nodes.
pub(crate) fn append_bins_of_cross(
    text: &mut Vec<u8>,
    store: &Store,
    bins: &[BinInfo],
    nodes: &[u32],
) -> Result<(), Memory>
    ensures { OnOk result (text.new.items ≡ text.old.items
        ++ markup_text (bins_of_cross (opening_of store.now) (entries_of store.now) bins.now nodes.now)) }
{
    for (bin, node) in bins.iter().zip(nodes) {
        append_bin_of_cross(text, store, bin, *node)?;
    }
    Ok(())
}
