//! Types with their instances and items.
ghost use Rattle.std.specs.Prelude.{◌≡◌, ◌<◌, ◌++◌, All, codes, length, OnOk};
ghost use Rattle.markup.specs.Trees.{each, markup_text};
ghost use Rattle.page_parts.specs.Frames.{details_begin};
ghost use Rattle.ucis_model.specs.Paths.{node_at};
ghost use Rattle.merge_store.specs.Now.{nodes_now};
ghost use Rattle.merge_store.specs.Stores.{opening_of, entries_of};
ghost use Rattle.store_views.specs.Views.{rows_at};
ghost use Rattle.export_page.specs.Views.{word_of as word_meant, standing_of as standing_meant};
ghost use Rattle.export_page.specs.Page.{item_part, instance_part, type_part, types_part};

use crate::bins::append_bins;
use cov_ground::Memory;
use merge_store::Store;
use page_parts::{Standing, begin_details, begin_section, end_block};
use std::alloc::Global;
use store_views::{bins_under, children};
use ucis_model::{CoverRow, NodeKind};

fn word_of(kind: NodeKind) -> &'static str
    ensures { result.now ≡ word_meant kind }
{
    match kind {
        NodeKind::CoverGroup => "type",
        NodeKind::CoverInstance => "instance",
        NodeKind::CoverPoint => "coverpoint",
        NodeKind::Cross => "cross",
        NodeKind::Root => "all",
        NodeKind::Bin(_) => "bin",
    }
}

fn standing_of(row: CoverRow, goal: u32) -> Standing
    ensures { result ≡ standing_meant row goal }
{
    Standing {
        millionths: row.millionths,
        goal,
        met: row.met,
        excluded: row.excluded,
        covered: row.covered,
        bins: row.bins,
    }
}

/// The line of a node, up to what stands under it.
fn begin_node(text: &mut Vec<u8>, store: &Store, node: u32) -> Result<(), Memory>
    requires { node < length (nodes_now store.now) }
    ensures { OnOk result (text.new.items ≡ text.old.items ++ details_begin
        (word_meant (node_at (nodes_now store.now) node).kind) (node_at (nodes_now store.now) node).name
        (standing_meant (rows_at (opening_of store.now) (entries_of store.now) node) (node_at (nodes_now store.now) node).goal)) }
{
    let row = store.cover_row(node)?;
    let it = &store.nodes()[node as usize];
    begin_details(
        text,
        word_of(it.kind),
        it.name.as_slice(),
        standing_of(row, it.goal),
    )?;
    Ok(())
}

/// An item with its bins.
fn append_item(alloc: Global, text: &mut Vec<u8>, store: &Store, node: u32) -> Result<(), Memory>
    requires { node < length (nodes_now store.now) }
    ensures { OnOk result (text.new.items ≡ text.old.items
        ++ markup_text (item_part (opening_of store.now) (entries_of store.now) node)) }
{
    begin_node(text, store, node)?;
    append_bins(alloc, text, store, bins_under(store, node))?;
    end_block(text, "details")?;
    Ok(())
}

fn append_items(
    alloc: Global,
    text: &mut Vec<u8>,
    store: &Store,
    items: &[u32],
) -> Result<(), Memory>
    requires { All (λ n. n < length (nodes_now store.now)) items.now }
    ensures { OnOk result (text.new.items ≡ text.old.items
        ++ markup_text (each (item_part (opening_of store.now) (entries_of store.now)) items.now)) }
{
    for item in items {
        append_item(alloc, text, store, *item)?;
    }
    Ok(())
}

/// An instance with its items.
fn append_instance(
    alloc: Global,
    text: &mut Vec<u8>,
    store: &Store,
    node: u32,
) -> Result<(), Memory>
    requires { node < length (nodes_now store.now) }
    ensures { OnOk result (text.new.items ≡ text.old.items
        ++ markup_text (instance_part (opening_of store.now) (entries_of store.now) node)) }
{
    begin_node(text, store, node)?;
    append_items(alloc, text, store, children(store, node))?;
    end_block(text, "details")?;
    Ok(())
}

fn append_instances(
    alloc: Global,
    text: &mut Vec<u8>,
    store: &Store,
    instances: &[u32],
) -> Result<(), Memory>
    requires { All (λ n. n < length (nodes_now store.now)) instances.now }
    ensures { OnOk result (text.new.items ≡ text.old.items
        ++ markup_text (each (instance_part (opening_of store.now) (entries_of store.now)) instances.now)) }
{
    for instance in instances {
        append_instance(alloc, text, store, *instance)?;
    }
    Ok(())
}

/// A type with its instances.
fn append_type(alloc: Global, text: &mut Vec<u8>, store: &Store, node: u32) -> Result<(), Memory>
    requires { node < length (nodes_now store.now) }
    ensures { OnOk result (text.new.items ≡ text.old.items
        ++ markup_text (type_part (opening_of store.now) (entries_of store.now) node)) }
{
    begin_node(text, store, node)?;
    append_instances(alloc, text, store, children(store, node))?;
    end_block(text, "details")?;
    Ok(())
}

fn append_all_types(
    alloc: Global,
    text: &mut Vec<u8>,
    store: &Store,
    types: &[u32],
) -> Result<(), Memory>
    requires { All (λ n. n < length (nodes_now store.now)) types.now }
    ensures { OnOk result (text.new.items ≡ text.old.items
        ++ markup_text (each (type_part (opening_of store.now) (entries_of store.now)) types.now)) }
{
    for group in types {
        append_type(alloc, text, store, *group)?;
    }
    Ok(())
}

/// The section of all types.
pub(crate) fn append_types(alloc: Global, text: &mut Vec<u8>, store: &Store) -> Result<(), Memory>
    ensures { OnOk result (text.new.items ≡ text.old.items
        ++ markup_text (types_part (opening_of store.now) (entries_of store.now))) }
{
    begin_section(text, "types", "Types, instances and items")?;
    append_all_types(alloc, text, store, children(store, 0))?;
    end_block(text, "section")?;
    Ok(())
}
