//! The axes of a cross.
ghost use Rattle.std.specs.Prelude.{◌≡◌, ◌++◌, ◌∷◌, [], List, map, filter, slice_get, if◌then◌else◌, IfOk, OnOk};
ghost use Rattle.design_data.specs.Bins.{is_coverage};
ghost use Rattle.cross_holes.specs.Projected.{axis_of, axes_of};

use cov_ground::Memory;
use cov_tree::{List, Name};
use design_data::{BinInfo, ItemInfo, ItemShape};
use std::alloc::Global;

/// A crossed point.
pub struct Axis {
    pub point: Name,
    /// The names of its coverage bins in order, which are the members of products.
    pub members: List<Name>,
}

impl Drop for Axis {
    fn drop(self) {
        let Axis {
            point: _,
            members: _,
        } = self;
    }
}

/// Adds the name of a bin, where it is a coverage bin.
fn add_member(members: &mut List<Name>, bin: &BinInfo) -> Result<(), Memory>
    ensures { OnOk result (members.new ≡ members.old ++ (if is_coverage bin.now.kind then bin.now.name ∷ [] else [])) }
{
    if bin.kind.is_coverage() {
        members.push(bin.name.share()?)?;
    }
    Ok(())
}

/// The names of the coverage bins.
fn member_names(alloc: Global, bins: &[BinInfo]) -> Result<List<Name>, Memory>
    ensures { IfOk result (λ names. names ≡ map (λ bin. bin.name) (filter (λ bin. is_coverage bin.kind) bins.now)) }
{
    let mut members = List::new(alloc);
    for bin in bins {
        add_member(&mut members, bin)?;
    }
    Ok(members)
}

/// The axis of the point at an index.
fn axis_of_point(alloc: Global, items: &[ItemInfo], index: u32) -> Result<Axis, Memory>
    ensures { IfOk result (λ axis. axis ≡ axis_of (slice_get items.now index)) }
{
    match items.get(index as usize) {
        None => Ok(Axis {
            point: Name::empty(),
            members: List::new(alloc),
        }),
        Some(item) => Ok(Axis {
            point: item.name.share()?,
            members: member_names(alloc, item.bins.as_slice())?,
        }),
    }
}

fn axes_at(alloc: Global, items: &[ItemInfo], indexes: &[u32]) -> Result<List<Axis>, Memory>
    ensures { IfOk result (λ axes. axes ≡ map (λ index. axis_of (slice_get items.now index)) indexes.now) }
{
    let mut axes = List::new(alloc);
    for index in indexes {
        axes.push(axis_of_point(alloc, items, *index)?)?;
    }
    Ok(axes)
}

/// The axes of an item of an instance with these items.
pub(crate) fn axes(
    alloc: Global,
    items: &[ItemInfo],
    shape: &ItemShape,
) -> Result<List<Axis>, Memory>
    ensures { IfOk result (λ axes. axes ≡ axes_of items.now shape.now) }
{
    match shape {
        ItemShape::Point(_) => Ok(List::new(alloc)),
        ItemShape::Cross(indexes) => axes_at(alloc, items, indexes.as_slice()),
    }
}
