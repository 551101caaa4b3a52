//! The items of an instance on the way.
ghost use Rattle.std.specs.Prelude.{◌≡◌, ◌<◌, [], OnOk, IfOk, map};
ghost use Rattle.cov_ground.specs.Limits.{most_items};
ghost use Rattle.name_map.specs.Names.{with_name, with_names};
ghost use Rattle.elab_base.specs.Gives.{Gives};
ghost use Rattle.elab_members.specs.Items.{no_items, has_room, with_item, places_from};

use crate::counts::Counts;
use cov_ground::Memory;
use cov_ground::limits::MOST_ITEMS;
use cov_options::Options;
use cov_tree::{List, Name};
use design_data::{BinInfo, ItemInfo};
use elab_base::{ElabFault, ElabKind, What, add_name};
use elab_values::{ItemDecls, Made};
use name_map::NameMap;
use std::alloc::Global;

/// The items of an instance on the way, and how much the design has with them.
#[derive(Drop)]
pub struct Items {
    pub names: NameMap<What>,
    pub items: List<ItemInfo>,
    /// For each of the items what a cross has to know of its declarations.
    pub decls: List<ItemDecls>,
    pub counts: Counts,
}

/// What the members of an instance have in common: the names of its formals and sample arguments, the options of its
/// group, and what its crosses have to know of the text of the group.
#[derive(Drop)]
pub struct Inside {
    pub names: NameMap<What>,
    pub options: Options,
    /// The names on which a cross of the group has `intersect`, each with the place of the first.
    pub intersected: NameMap<u32>,
    /// The names that the points of the group have by themselves, those behind a cross among them.
    pub points: NameMap<()>,
}

/// No items.
pub(crate) fn nothing(alloc: Global, counts: Counts) -> Items
    ensures { result ≡ no_items counts }
{
    Items {
        names: NameMap::new(alloc),
        items: List::new(alloc),
        decls: List::new(alloc),
        counts,
    }
}

/// Refuses an item for which the design has no room.
#[tactic(auto, unfolding(elab_base::specs::Gives::needs))]
pub(crate) fn check_room(counts: &Counts, at: u32) -> Result<(), ElabFault>
    ensures gives { Gives result (has_room counts.now at) }
    ensures few { OnOk result (counts.now.items < most_items) }
{
    if counts.items as usize >= MOST_ITEMS {
        return Err(ElabKind::DesignLimit.at(at));
    }
    Ok(())
}

/// The bins themselves.
pub(crate) fn infos(alloc: Global, bins: Vec<Made>) -> Result<List<BinInfo>, Memory>
    ensures { IfOk result (λ infos. infos ≡ map (λ made. made.bin) bins.items) }
{
    let mut infos = List::new(alloc);
    for made in bins {
        let Made {
            bin,
            at: _,
            declared: _,
        } = made;
        infos.push(bin)?;
    }
    Ok(infos)
}

/// For each bin the place of its declaration.
pub(crate) fn origins(alloc: Global, bins: &[Made]) -> Result<List<Option<u32>>, Memory>
    ensures { IfOk result (λ from. from ≡ map (λ made. made.declared) bins.now) }
{
    let mut from = List::new(alloc);
    for made in bins {
        from.push(made.declared)?;
    }
    Ok(from)
}

/// The number as one of 32 bits. So many items or names as it doesn't hold don't fit into memory.
pub(crate) fn index_of(place: usize) -> Result<u32, Memory>
    ensures { IfOk result (λ same. same ≡ place) }
{
    match u32::try_from(place) {
        Ok(place) => Ok(place),
        Err(_) => Err(Memory),
    }
}

/// Adds a name with its place.
fn add_place(
    alloc: Global,
    name: &Name,
    place: usize,
    places: &mut NameMap<u32>,
) -> Result<(), Memory>
    ensures { OnOk result (places.new ≡ with_name places.old name.now place) }
{
    let place = index_of(place)?;
    places.declare(name.share()?, place)?;
    Ok(())
}

/// Names with their places.
pub(crate) fn places(alloc: Global, names: &[Name]) -> Result<NameMap<u32>, Memory>
    ensures { IfOk result (λ places. places ≡ with_names [] (places_from 0 names.now)) }
{
    let mut places = NameMap::new(alloc);
    for (place, name) in names.iter().enumerate() {
        add_place(alloc, name, place, &mut places)?;
    }
    Ok(places)
}

/// Adds an item.
#[tactic(auto, unfolding(crate::specs::Items::with_item))]
pub(crate) fn keep_item(
    alloc: Global,
    item: ItemInfo,
    decls: ItemDecls,
    counts: Counts,
    items: &mut Items,
) -> Result<(), Memory>
    requires { items.old.counts.items < most_items }
    ensures { OnOk result (items.new ≡ with_item item decls counts items.old) }
{
    let index = index_of(items.items.as_slice().len())?;
    add_name(alloc, &mut items.names, &item.name, What::Item { index })?;
    items.items.push(item)?;
    items.decls.push(decls)?;
    let count = items.counts.items + 1;
    items.counts = counts;
    items.counts.items = count;
    Ok(())
}
