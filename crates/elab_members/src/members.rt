//! The members of a group at one of its instances.
ghost use Rattle.std.specs.Prelude.{◌≡◌, IfOk};
ghost use Rattle.design_data.specs.Tested.{HaveFewBins};
ghost use Rattle.elab_base.specs.Gives.{Gives, Makes};
ghost use Rattle.elab_decls.specs.Invariant.{AreInRange};
ghost use Rattle.elab_members.specs.Members.{inside_in, member, members_walked};

use crate::counts::Counts;
use crate::crosses::add_cross;
use crate::defaults::DefaultNames;
use crate::intersections::intersected;
use crate::items::{Inside, Items, nothing};
use crate::points::{add_named, name_of};
use cov_ground::Memory;
use cov_options::Options;
use cov_tree::Member;
use elab_base::{ElabFault, What};
use elab_crosses::own_names;
use elab_decls::Outside;
use name_map::NameMap;
use std::alloc::Global;

/// What the members of an instance have in common.
pub fn inside_of(
    alloc: Global,
    names: NameMap<What>,
    options: Options,
    members: &[Member],
) -> Result<Inside, Memory>
    ensures { IfOk result (λ inside. inside ≡ inside_in names options members.now) }
{
    let intersected = intersected(alloc, members)?;
    let points = own_names(alloc, members)?;
    Ok(Inside {
        names,
        options,
        intersected,
        points,
    })
}

fn add_member(
    alloc: Global,
    outside: &mut Outside,
    inside: &Inside,
    found: &Member,
    items: &mut Items,
    defaults: &mut DefaultNames,
) -> Result<(), ElabFault>
    requires range { AreInRange inside.now.options }
    requires few { HaveFewBins items.old.items }
    ensures gives { Makes result items.new (member outside.old inside.now found.now items.old) }
    ensures same { outside.new ≡ outside.old }
{
    match found {
        Member::Point(point) => {
            let name = name_of(alloc, point, items.items.as_slice().len(), defaults)?;
            add_named(alloc, outside, inside, name, point, items)
        }
        Member::Opt(_) => Ok(()),
        Member::Cross(cross) => add_cross(alloc, outside, inside, cross, items, defaults),
    }
}

/// The items of an instance. What is declared outside is lent, with the names of the instance entered, and as before
/// afterwards.
#[tactic(auto, unfolding(crate::specs::Members::members_walked))]
pub fn walk_members(
    alloc: Global,
    outside: &mut Outside,
    inside: &Inside,
    counts: Counts,
    members: &[Member],
    defaults: &mut DefaultNames,
) -> Result<Items, ElabFault>
    requires { AreInRange inside.now.options }
    ensures gives { Gives result (members_walked outside.old inside.now counts members.now) }
    ensures same { outside.new ≡ outside.old }
{
    let mut items = nothing(alloc, counts);
    for found in members {
        add_member(alloc, outside, inside, found, &mut items, defaults)?;
    }
    Ok(items)
}
