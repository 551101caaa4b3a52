//! The lines of all holes.
ghost use Rattle.std.specs.Prelude.{◌≡◌, ◌<◌, ◌++◌, All, length, slice_get, IfOk, OnOk};
ghost use Rattle.std.specs.List.{flat_map, enumerate_from};
ghost use Rattle.ucis_model.specs.Paths.{path_of};
ghost use Rattle.cov_history.specs.Coverage.{at_least, live_under as live_meant};
ghost use Rattle.cov_history.specs.Nodes.{children as children_meant};
ghost use Rattle.cov_history.specs.History.{design_of};
ghost use Rattle.merge_store.specs.Now.{nodes_now, count_now, excluded_now};
ghost use Rattle.merge_store.specs.Stores.{opening_of, entries_of};
ghost use Rattle.cross_holes.specs.Projected.{cross_of, projected, alone};
ghost use Rattle.export_lists.specs.Lines.{all_line, holes_line};
ghost use Rattle.export_lists.specs.Holes.{line_of_hole, holes_under, lines_of_cross, lines_with_holes, lines_of_item, lines_of_instance, lines_of_type, items_at as items_meant, holes_text};

use crate::lines;
use crate::live::{holes_among, live_under};
use cov_base::Memory;
use cross_holes::{CrossHoles, ProjectedHole, cross_holes};
use design_data::ItemInfo;
use merge_store::Store;
use std::alloc::Global;
use store_views::{children, instance_at};

/// How often the bin that a node is has to be hit.
fn least_of(store: &Store, node: u32) -> u32
    requires { node < length (nodes_now store.now) }
    ensures { result ≡ at_least (nodes_now store.now) node }
{
    store.nodes()[node as usize].at_least
}

/// The line of the hole that a node is.
fn append_hole(text: &mut Vec<u8>, store: &Store, node: u32) -> Result<(), Memory>
    requires { node < length (nodes_now store.now) }
    ensures { OnOk result (text.new.items
        ≡ text.old.items ++ line_of_hole (nodes_now store.now) (count_now store.now) node) }
{
    let hits = store.count(node);
    let least = least_of(store, node);
    let path = store.path_text(node)?;
    lines::append_hole(text, hits, least, path.as_slice())?;
    Ok(())
}

fn append_holes(text: &mut Vec<u8>, store: &Store, holes: &[u32]) -> Result<(), Memory>
    requires { All (λ n. n < length (nodes_now store.now)) holes.now }
    ensures { OnOk result (text.new.items
        ≡ text.old.items ++ flat_map (line_of_hole (nodes_now store.now) (count_now store.now)) holes.now) }
{
    for hole in holes {
        append_hole(text, store, *hole)?;
    }
    Ok(())
}

/// The lines of the projected holes of the cross at a path.
fn append_projected(text: &mut Vec<u8>, path: &[u8], holes: &[ProjectedHole]) -> Result<(), Memory>
    ensures { OnOk result (text.new.items
        ≡ text.old.items ++ flat_map (λ hole. all_line path.now hole.point hole.member) holes.now) }
{
    for hole in holes {
        lines::append_all(text, path, hole.point.as_slice(), hole.member.as_slice())?;
    }
    Ok(())
}

/// The holes of the item at a place, put together where they can be.
fn holes_at(
    alloc: Global,
    store: &Store,
    items: &[ItemInfo],
    place: usize,
    live: &[u32],
    holes: &[u32],
) -> Result<CrossHoles, Memory>
    ensures projected { IfOk result (λ found. found.projected
        ≡ projected (cross_of (nodes_now store.now) items.now (slice_get items.now place) live.now holes.now)) }
    ensures alone { IfOk result (λ found. found.alone
        ≡ alone (cross_of (nodes_now store.now) items.now (slice_get items.now place) live.now holes.now)) }
{
    let found = cross_holes(alloc, store.nodes(), items, place, live, holes)?;
    Ok(found)
}

/// The lines of the holes of the item at a place, whose path this is.
fn append_cross(
    alloc: Global,
    text: &mut Vec<u8>,
    store: &Store,
    items: &[ItemInfo],
    place: usize,
    path: &[u8],
    live: &[u32],
    holes: &[u32],
) -> Result<(), Memory>
    requires { All (λ n. n < length (nodes_now store.now)) holes.now }
    ensures { OnOk result (text.new.items ≡ text.old.items ++ lines_of_cross (nodes_now store.now) (count_now store.now)
        path.now (cross_of (nodes_now store.now) items.now (slice_get items.now place) live.now holes.now)) }
{
    let found = holes_at(alloc, store, items, place, live, holes)?;
    append_projected(text, path, found.projected.as_slice())?;
    append_holes(text, store, found.alone.as_slice())?;
    Ok(())
}

/// The lines of the item at a place of its instance, which a node is, with these live bins and holes.
fn append_with_holes(
    alloc: Global,
    text: &mut Vec<u8>,
    store: &Store,
    items: &[ItemInfo],
    place: usize,
    node: u32,
    live: &[u32],
    holes: &[u32],
) -> Result<(), Memory>
    requires node { node < length (nodes_now store.now) }
    requires holes { All (λ n. n < length (nodes_now store.now)) holes.now }
    ensures { OnOk result (text.new.items ≡ text.old.items ++ lines_with_holes (nodes_now store.now) (count_now store.now)
        items.now place node live.now holes.now) }
{
    let path = store.path_text(node)?;
    lines::append_item(text, path.as_slice(), holes.len() as u64, live.len() as u64)?;
    append_cross(
        alloc,
        text,
        store,
        items,
        place,
        path.as_slice(),
        live,
        holes,
    )?;
    Ok(())
}

/// The lines of the item at a place of its instance, which a node is, where it has a hole.
fn append_item(
    alloc: Global,
    text: &mut Vec<u8>,
    store: &Store,
    items: &[ItemInfo],
    place: usize,
    node: u32,
) -> Result<(), Memory>
    requires { node < length (nodes_now store.now) }
    ensures { OnOk result (text.new.items ≡ text.old.items ++ lines_of_item (nodes_now store.now) (count_now store.now)
        (excluded_now store.now) items.now place node) }
{
    let live = live_under(alloc, store, node)?;
    let holes = holes_among(alloc, store, live.as_slice())?;
    if holes.is_empty() {
        return Ok(());
    }
    append_with_holes(
        alloc,
        text,
        store,
        items,
        place,
        node,
        live.as_slice(),
        holes.as_slice(),
    )?;
    Ok(())
}

/// The items of the instance that a node is.
fn items_at(store: &Store, node: u32) -> &[ItemInfo]
    requires { node < length (nodes_now store.now) }
    ensures { result.now ≡ items_meant (design_of (opening_of store.now) (entries_of store.now)).instances
        (nodes_now store.now) node }
{
    match instance_at(store, node) {
        Some(instance) => instance.items.as_slice(),
        None => &[],
    }
}

/// The lines of these items, which the nodes are.
fn append_items(
    alloc: Global,
    text: &mut Vec<u8>,
    store: &Store,
    items: &[ItemInfo],
    below: &[u32],
) -> Result<(), Memory>
    requires { All (λ n. n < length (nodes_now store.now)) below.now }
    ensures { OnOk result (text.new.items ≡ text.old.items
        ++ flat_map (λ item. lines_of_item (nodes_now store.now) (count_now store.now) (excluded_now store.now) items.now
        item.0 item.1) (enumerate_from 0 below.now)) }
{
    for (place, item) in below.iter().enumerate() {
        append_item(alloc, text, store, items, place, *item)?;
    }
    Ok(())
}

fn append_instance(
    alloc: Global,
    text: &mut Vec<u8>,
    store: &Store,
    node: u32,
) -> Result<(), Memory>
    requires { node < length (nodes_now store.now) }
    ensures { OnOk result (text.new.items ≡ text.old.items
        ++ lines_of_instance (design_of (opening_of store.now) (entries_of store.now)).instances (nodes_now store.now)
        (count_now store.now) (excluded_now store.now) node) }
{
    let items = items_at(store, node);
    let below = children(store, node);
    append_items(alloc, text, store, items, below)?;
    Ok(())
}

fn append_type(alloc: Global, text: &mut Vec<u8>, store: &Store, node: u32) -> Result<(), Memory>
    requires { node < length (nodes_now store.now) }
    ensures { OnOk result (text.new.items ≡ text.old.items
        ++ lines_of_type (design_of (opening_of store.now) (entries_of store.now)).instances (nodes_now store.now)
        (count_now store.now) (excluded_now store.now) node) }
{
    for instance in children(store, node) {
        append_instance(alloc, text, store, *instance)?;
    }
    Ok(())
}

/// How many live bins there are, and how many of them are holes.
fn append_amounts(alloc: Global, text: &mut Vec<u8>, store: &Store) -> Result<(), Memory>
    ensures { OnOk result (text.new.items ≡ text.old.items ++ holes_line (length (holes_under (nodes_now store.now)
        (count_now store.now) (excluded_now store.now) 0)) (length (live_meant (nodes_now store.now) (excluded_now store.now) 0))) }
{
    let live = live_under(alloc, store, 0)?;
    let holes = holes_among(alloc, store, live.as_slice())?;
    lines::append_amounts(text, holes.len() as u64, live.len() as u64)
}

fn append_types(alloc: Global, text: &mut Vec<u8>, store: &Store) -> Result<(), Memory>
    ensures { OnOk result (text.new.items ≡ text.old.items
        ++ flat_map (lines_of_type (design_of (opening_of store.now) (entries_of store.now)).instances
        (nodes_now store.now) (count_now store.now) (excluded_now store.now)) (children_meant (nodes_now store.now) 0)) }
{
    for group in children(store, 0) {
        append_type(alloc, text, store, *group)?;
    }
    Ok(())
}

/// The holes of a store: how many live bins aren't covered, and then, item by item, which. A bin is live where it counts for
/// coverage and neither it nor a node above it is excluded. Where no live product of a cross with one member of a crossed
/// point is covered, and there are two of them at least, one line stands for all of them (IEEE 1800-2017, 19.6), so that each
/// hole is said once. The time is linear in the bins.
#[tactic(auto, unfolding(crate::specs::Holes::holes_text))]
pub fn holes_lines(alloc: Global, store: &Store) -> Result<Vec<u8>, Memory>
    ensures { IfOk result (λ text. text.items ≡ holes_text (opening_of store.now) (entries_of store.now)) }
{
    let mut text = Vec::new(alloc);
    append_amounts(alloc, &mut text, store)?;
    append_types(alloc, &mut text, store)?;
    Ok(text)
}
