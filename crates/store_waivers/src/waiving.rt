//! Waivers that are applied to a store.
ghost use Rattle.std.specs.Prelude.{◌≡◌, ◌<◌, ◌^◌, ◌++◌, All, length, map, slice_index_or, [], IfOk, IfErr, OnOk};
ghost use Rattle.std.specs.List.{flat_map};
ghost use Rattle.cov_history.specs.History.{design_of};
ghost use Rattle.merge_store.specs.Stores.{opening_of, entries_of};
ghost use Rattle.merge_store.specs.Now.{nodes_now};
ghost use Rattle.waivers.specs.Waived.{paths_in};
ghost use Rattle.store_waivers.specs.Waived.{behind_exclude, excluding, waiving, Waives, IsLimit};
ghost use Rattle.store_waivers.specs.Lines.{waiver_lines};
ghost use Rattle.store_waivers.specs.Among.{paths_at, paths_among, line_among};

use crate::WaiveFault;
use cov_base::Memory;
use cov_tree::Name;
use merge_store::{ExcludeFault, Store};
use std::alloc::Global;
use waivers::{Waiver, append_waiver, waived_among};

/// The paths of all nodes of the design of now, in order.
fn paths_of(alloc: Global, store: &Store) -> Result<Vec<Name>, Memory>
    ensures paths { IfOk result (λ paths. paths.items ≡ paths_in (nodes_now store.now)) }
    ensures few { IfOk result (λ paths. length paths.items < 2 ^ 32) }
{
    let nodes = store.nodes().len();
    if nodes > u32::MAX as usize {
        // no memory holds more
        return Err(Memory);
    }
    let mut paths = Vec::new(alloc);
    for node in 0..nodes as u32 {
        paths.push(store.path_text(node)?)?;
    }
    Ok(paths)
}

/// Excludes the node of a path, unless it is out already.
fn exclude(store: &mut Store, path: &[u8]) -> Result<(), WaiveFault>
    ensures opening { opening_of store.new ≡ opening_of store.old }
    ensures answer { Waives result (entries_of store.new)
        (behind_exclude (opening_of store.old) (entries_of store.old) path.now) }
{
    match store.exclude(0, path) {
        Ok(()) => Ok(()),
        Err(ExcludeFault::NoSuchPath) => Ok(()),
        Err(ExcludeFault::AlreadyExcluded) => Ok(()),
        Err(ExcludeFault::Full { which, have, want }) => Err(WaiveFault::Full {
            which,
            have,
            want,
        }),
        Err(ExcludeFault::Memory) => Err(WaiveFault::Memory),
    }
}

/// Excludes the nodes of the paths at these places.
fn exclude_all(store: &mut Store, paths: &[Name], places: &[u32]) -> Result<(), WaiveFault>
    requires inside { All (λ place. place < length paths.now) places.now }
    ensures opening { opening_of store.new ≡ opening_of store.old }
    ensures answer { Waives result (entries_of store.new)
        (excluding (opening_of store.old) (entries_of store.old) (paths_at paths.now places.now)) }
{
    let mut rest = places;
    while let Some((place, later)) = rest.split_first() {
        exclude(store, paths[*place as usize].as_slice())?;
        rest = later;
    }
    Ok(())
}

/// Excludes what a waiver leaves out, and adds its line.
fn waive_one(
    alloc: Global,
    store: &mut Store,
    paths: &[Name],
    waiver: &Waiver,
    text: &mut Vec<u8>,
) -> Result<(), WaiveFault>
    requires few { length paths.now < 2 ^ 32 }
    ensures opening { opening_of store.new ≡ opening_of store.old }
    ensures answer { Waives result (entries_of store.new)
        (excluding (opening_of store.old) (entries_of store.old) (paths_among paths.now waiver.now)) }
    ensures told { OnOk result (text.new.items ≡ text.old.items ++ line_among paths.now waiver.now) }
{
    let places = waived_among(alloc, paths, waiver.pattern.as_slice())?;
    append_waiver(text, places.len() as u64, waiver)?;
    exclude_all(store, paths, places.as_slice())?;
    Ok(())
}

/// The same of each waiver, in order.
fn waive_each(
    alloc: Global,
    store: &mut Store,
    paths: &[Name],
    waivers: &[Waiver],
    text: &mut Vec<u8>,
) -> Result<(), WaiveFault>
    requires few { length paths.now < 2 ^ 32 }
    ensures opening { opening_of store.new ≡ opening_of store.old }
    ensures answer { Waives result (entries_of store.new)
        (excluding (opening_of store.old) (entries_of store.old) (flat_map (paths_among paths.now) waivers.now)) }
    ensures told { OnOk result (text.new.items ≡ text.old.items ++ flat_map (line_among paths.now) waivers.now) }
{
    let mut rest = waivers;
    while let Some((waiver, later)) = rest.split_first() {
        waive_one(alloc, store, paths, waiver, text)?;
        rest = later;
    }
    Ok(())
}

/// Applies waivers to a store: excludes each node that one of them matches, by caller 0, and adds a line for each
/// waiver, `waived N PATTERN ..` or `stale PATTERN`. The path of each node is built once, and each waiver is compared
/// with each path once.
///
/// # Errors
/// The first limit that would be passed, or want of memory. The store may then have some of the excludes, and the text
/// some of the lines.
pub fn waive(
    alloc: Global,
    store: &mut Store,
    waivers: &[Waiver],
    text: &mut Vec<u8>,
) -> Result<(), WaiveFault>
    ensures opening { opening_of store.new ≡ opening_of store.old }
    ensures design { OnOk result (design_of (opening_of store.new) (entries_of store.new)
        ≡ design_of (opening_of store.old) (entries_of store.old)) }
    ensures waived { OnOk result (waiving (opening_of store.old) (entries_of store.old) waivers.now
        ≡ Ok (entries_of store.new)) }
    ensures told { OnOk result (text.new.items ≡ text.old.items ++ waiver_lines (nodes_now store.old) waivers.now) }
    ensures full { IfErr result (IsLimit (waiving (opening_of store.old) (entries_of store.old) waivers.now)) }
{
    let paths = paths_of(alloc, store)?;
    waive_each(alloc, store, paths.as_slice(), waivers, text)?;
    Ok(())
}
