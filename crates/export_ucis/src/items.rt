//! The coverpoints and crosses of an instance.
ghost use Rattle.std.specs.Prelude.{◌≡◌, ◌++◌, [], codes, OnOk};
ghost use Rattle.markup.specs.Trees.{markup_text, start_text};
ghost use Rattle.ucis_elements.specs.Words.{named};
ghost use Rattle.ucis_elements.specs.Items.{point_attributes, point_head, cross_head};
ghost use Rattle.cov_history.specs.History.{design_of};
ghost use Rattle.merge_store.specs.Now.{excluded_now};
ghost use Rattle.merge_store.specs.Stores.{opening_of, entries_of};
ghost use Rattle.export_ucis.specs.Nodes.{coverpoint, cross, point_of, cross_of, points_of, crosses_of};

use crate::bins::{append_bins_of_cross, append_bins_of_point, is_excluded};
use const_eval::{Bound, typ};
use cov_base::Memory;
use design_data::{ItemInfo, ItemShape, Signal};
use markup::{close, end_line};
use merge_store::Store;
use std::alloc::Global;
use store_views::bins_under;
use ucis_elements::{Names, begin_cross, begin_point};

/// A coverpoint of an instance with these arguments, up to its bins.
fn begin_point_at(
    alloc: Global,
    text: &mut Vec<u8>,
    store: &Store,
    arguments: &[Signal],
    item: &ItemInfo,
    node: u32,
) -> Result<(), Memory>
    ensures { OnOk result (text.new.items ≡ text.old.items ++ (start_text (codes "coverpoint")
        (point_attributes (design_of (opening_of store.now) (entries_of store.now)).signals arguments.now node
        (excluded_now store.now node) item.now) ++ markup_text (point_head item.now))) }
{
    let excluded = is_excluded(store, node)?;
    let signals = store.design().signals();
    let names = Names { signals, arguments };
    begin_point(alloc, text, &names, node, excluded, item)
}

/// A coverpoint of this expression, of an instance with these arguments.
fn append_coverpoint(
    alloc: Global,
    text: &mut Vec<u8>,
    store: &Store,
    arguments: &[Signal],
    expr: &Bound,
    item: &ItemInfo,
    node: u32,
) -> Result<(), Memory>
    ensures { OnOk result (text.new.items ≡ text.old.items ++ markup_text
        (coverpoint (opening_of store.now) (entries_of store.now) arguments.now expr.now item.now node)) }
{
    let typ = typ(expr);
    let bins = item.bins.as_slice();
    let nodes = bins_under(store, node);
    begin_point_at(alloc, text, store, arguments, item, node)?;
    append_bins_of_point(alloc, text, store, typ, bins, nodes)?;
    close(text, "coverpoint")?;
    end_line(text)
}

/// An item of an instance with these arguments, where it is a coverpoint.
#[tactic(auto, unfolding(crate::specs::Nodes::point_of))]
fn append_point(
    alloc: Global,
    text: &mut Vec<u8>,
    store: &Store,
    arguments: &[Signal],
    item: &ItemInfo,
    node: u32,
) -> Result<(), Memory>
    ensures { OnOk result (text.new.items ≡ text.old.items
        ++ markup_text (point_of (opening_of store.now) (entries_of store.now) arguments.now item.now node)) }
{
    match &item.shape {
        ItemShape::Point(expr) => {
            append_coverpoint(alloc, text, store, arguments, expr, item, node)
        }
        ItemShape::Cross(_) => Ok(()),
    }
}

/// A cross of the points at these places among the items, up to its bins.
fn begin_cross_at(
    text: &mut Vec<u8>,
    store: &Store,
    items: &[ItemInfo],
    axes: &[u32],
    item: &ItemInfo,
    node: u32,
) -> Result<(), Memory>
    ensures { OnOk result (text.new.items ≡ text.old.items ++ (start_text (codes "cross")
        (named item.now.name node (excluded_now store.now node) [])
        ++ markup_text (cross_head items.now axes.now item.now))) }
{
    let excluded = is_excluded(store, node)?;
    begin_cross(text, items, axes, node, excluded, item)
}

/// A cross of the points at these places among the items.
fn append_cross_with(
    text: &mut Vec<u8>,
    store: &Store,
    items: &[ItemInfo],
    axes: &[u32],
    item: &ItemInfo,
    node: u32,
) -> Result<(), Memory>
    ensures { OnOk result (text.new.items ≡ text.old.items
        ++ markup_text (cross (opening_of store.now) (entries_of store.now) items.now axes.now item.now node)) }
{
    let bins = item.bins.as_slice();
    let nodes = bins_under(store, node);
    begin_cross_at(text, store, items, axes, item, node)?;
    append_bins_of_cross(text, store, bins, nodes)?;
    close(text, "cross")?;
    end_line(text)
}

/// An item among these, where it is a cross.
#[tactic(auto, unfolding(crate::specs::Nodes::cross_of))]
fn append_cross(
    text: &mut Vec<u8>,
    store: &Store,
    items: &[ItemInfo],
    item: &ItemInfo,
    node: u32,
) -> Result<(), Memory>
    ensures { OnOk result (text.new.items ≡ text.old.items
        ++ markup_text (cross_of (opening_of store.now) (entries_of store.now) items.now item.now node)) }
{
    match &item.shape {
        ItemShape::Cross(axes) => {
            append_cross_with(text, store, items, axes.as_slice(), item, node)
        }
        ItemShape::Point(_) => Ok(()),
    }
}

/// The coverpoints among the items of an instance with these arguments, which are these nodes.
pub(crate) fn append_points(
    alloc: Global,
    text: &mut Vec<u8>,
    store: &Store,
    arguments: &[Signal],
    items: &[ItemInfo],
    nodes: &[u32],
) -> Result<(), Memory>
    ensures { OnOk result (text.new.items ≡ text.old.items
        ++ markup_text (points_of (opening_of store.now) (entries_of store.now) arguments.now items.now nodes.now)) }
{
    for (item, node) in items.iter().zip(nodes) {
        append_point(alloc, text, store, arguments, item, *node)?;
    }
    Ok(())
}

/// The crosses among the items of an instance, which are these nodes.
pub(crate) fn append_crosses(
    text: &mut Vec<u8>,
    store: &Store,
    items: &[ItemInfo],
    nodes: &[u32],
) -> Result<(), Memory>
    ensures { OnOk result (text.new.items ≡ text.old.items
        ++ markup_text (crosses_of (opening_of store.now) (entries_of store.now) items.now nodes.now)) }
{
    for (item, node) in items.iter().zip(nodes) {
        append_cross(text, store, items, item, *node)?;
    }
    Ok(())
}
