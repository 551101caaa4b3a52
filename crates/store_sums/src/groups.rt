//! Bins by their names.
ghost use Rattle.std.specs.Prelude.{◌≡◌, ◌<◌, ◌∷◌, [], Some, None, map, length, IfSome, IfOk, OnOk};
ghost use Rattle.name_map.specs.Names.{meaning_of, with_name};
ghost use Rattle.store_sums.specs.Groups.{put_at};

use cov_base::Memory;
use cov_tree::Name;
use name_map::NameMap;
use std::alloc::Global;

/// A list of one bin.
fn one(alloc: Global, bin: u32) -> Result<Vec<u32>, Memory>
    ensures { IfOk result (λ list. list.items ≡ bin ∷ []) }
{
    let mut list = Vec::new(alloc);
    list.push(bin)?;
    Ok(list)
}

/// A bin more in the list at a place.
fn push_at(lists: &mut Vec<Vec<u32>>, place: usize, bin: u32) -> Result<(), Memory>
    requires { place < length lists.old.items }
    ensures { OnOk result (map (λ list. list.items) lists.new.items
        ≡ put_at (Some place) bin (map (λ list. list.items) lists.old.items)) }
{
    lists[place].push(bin)?;
    Ok(())
}

/// A list of one bin behind the others.
fn push_one(alloc: Global, lists: &mut Vec<Vec<u32>>, bin: u32) -> Result<(), Memory>
    ensures { OnOk result (map (λ list. list.items) lists.new.items
        ≡ put_at None bin (map (λ list. list.items) lists.old.items)) }
{
    let list = one(alloc, bin)?;
    lists.push(list)?;
    Ok(())
}

/// A bin more in the list of its name.
pub(crate) fn put_by_name(
    alloc: Global,
    names: &mut NameMap<usize>,
    lists: &mut Vec<Vec<u32>>,
    name: &[u8],
    bin: u32,
) -> Result<(), Memory>
    requires { IfSome (meaning_of names.old name.now) (λ place. place < length lists.old.items) }
    ensures names { OnOk result (names.new
        ≡ with_name names.old name.now (length lists.old.items)) }
    ensures lists { OnOk result (map (λ list. list.items) lists.new.items
        ≡ put_at (meaning_of names.old name.now) bin (map (λ list. list.items) lists.old.items)) }
{
    if let Some(place) = names.get(name).copied() {
        return push_at(lists, place, bin);
    }
    let place = lists.len();
    names.declare(Name::of(alloc, name)?, place)?;
    push_one(alloc, lists, bin)
}
