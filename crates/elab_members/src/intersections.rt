//! The points of a group on which a cross has `intersect`.
ghost use Rattle.std.specs.Prelude.{◌≡◌, OnOk, IfOk};
ghost use Rattle.elab_members.specs.Intersections.{with_meets, with_sel, with_cross_bins, with_member as with_a_member, with_members, intersected_in};

use cov_ground::Memory;
use cov_tree::{CrossBins, Elem, List, Member, Name, Sel};
use name_map::NameMap;
use std::alloc::Global;

fn add_meets(
    alloc: Global,
    point: &Name,
    meets: &Option<List<Elem>>,
    at: u32,
    names: &mut NameMap<u32>,
) -> Result<(), Memory>
    ensures { OnOk result (names.new ≡ with_meets point.now meets.now at names.old) }
{
    if meets.is_some() {
        names.declare(point.share()?, at)?;
    }
    Ok(())
}

fn add_sel(alloc: Global, sel: &Sel, names: &mut NameMap<u32>) -> Result<(), Memory>
    ensures { OnOk result (names.new ≡ with_sel sel.now names.old) }
{
    match sel {
        Sel::BinsOf {
            point,
            meets,
            at,
            ..
        } => add_meets(alloc, point, meets, *at, names),
        Sel::Not(inner) => add_sel(alloc, inner.get(), names),
        Sel::And(left, right) | Sel::Or(left, right) => {
            add_sel(alloc, left.get(), names)?;
            add_sel(alloc, right.get(), names)
        }
    }
}

fn add_cross_bins(alloc: Global, bins: &[CrossBins], names: &mut NameMap<u32>) -> Result<(), Memory>
    ensures { OnOk result (names.new ≡ with_cross_bins bins.now names.old) }
{
    for decl in bins {
        add_sel(alloc, &decl.sel, names)?;
    }
    Ok(())
}

fn add_member(alloc: Global, member: &Member, names: &mut NameMap<u32>) -> Result<(), Memory>
    ensures { OnOk result (names.new ≡ with_a_member member.now names.old) }
{
    match member {
        Member::Cross(cross) => add_cross_bins(alloc, cross.bins.as_slice(), names),
        _ => Ok(()),
    }
}

fn add_members(alloc: Global, members: &[Member], names: &mut NameMap<u32>) -> Result<(), Memory>
    ensures { OnOk result (names.new ≡ with_members members.now names.old) }
{
    for member in members {
        add_member(alloc, member, names)?;
    }
    Ok(())
}

/// The names on which a cross among the members has `intersect`, each with the place of the first.
#[tactic(auto, unfolding(crate::specs::Intersections::intersected_in))]
pub(crate) fn intersected(alloc: Global, members: &[Member]) -> Result<NameMap<u32>, Memory>
    ensures { IfOk result (λ names. names ≡ intersected_in members.now) }
{
    let mut names = NameMap::new(alloc);
    add_members(alloc, members, &mut names)?;
    Ok(names)
}
