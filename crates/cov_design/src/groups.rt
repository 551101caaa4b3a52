//! Groups.
ghost use Rattle.std.specs.Prelude.{◌≡◌, ◌<◌, length, set, IfOk, OnOk};
ghost use Rattle.elab_base.specs.Gives.{Gives, Makes};
ghost use Rattle.cov_options.specs.Table.{defaults};
ghost use Rattle.cov_design.specs.Groups.{group_info, groups_fit, group as group_meant};

use crate::known::Known;
use cov_ground::Memory;
use cov_ground::limits::LONGEST_DESIGN;
use cov_options::Options;
use cov_tree::{List, Name};
use design_data::GroupInfo;
use elab_base::{ElabFault, ElabKind, What, add_name, check_unused};
use std::alloc::Global;

#[tactic(auto, unfolding(crate::specs::Groups::groups_fit, elab_base::specs::Gives::needs))]
fn group_count(known: &Known, at: u32) -> Result<u32, ElabFault>
    ensures { Gives result (groups_fit known.now at) }
{
    let count = known.groups.as_slice().len();
    if count >= LONGEST_DESIGN as usize {
        return Err(ElabKind::DesignLimit.at(at));
    }
    Ok(count as u32)
}

/// A group with its type options.
fn info(alloc: Global, name: &Name, options: &Options) -> Result<GroupInfo, Memory>
    ensures { IfOk result (λ info. info ≡ group_info name.now options.now) }
{
    Ok(GroupInfo {
        name: name.share()?,
        weight: options.type_weight,
        goal: options.type_goal,
        merge: options.type_merge_instances == 1,
    })
}

/// A group without instances so far: its type options are the defaults.
fn info_by_default(alloc: Global, name: &Name) -> Result<GroupInfo, Memory>
    ensures { IfOk result (λ info. info ≡ group_info name.now defaults) }
{
    info(alloc, name, &Options::new())
}

/// The groups, of which one has these type options.
pub(crate) fn with_options(
    alloc: Global,
    groups: List<GroupInfo>,
    group: u32,
    name: &Name,
    options: &Options,
) -> Result<List<GroupInfo>, Memory>
    requires { group < length groups }
    ensures { IfOk result (λ done. done ≡ set groups group (group_info name.now options.now)) }
{
    let mut all = groups.into_vec();
    all[group as usize] = info(alloc, name, options)?;
    Ok(List::of(all))
}

/// Adds a group, whose body is walked at its instances.
#[tactic(auto, unfolding(crate::specs::Groups::group))]
pub(crate) fn add_group(
    alloc: Global,
    place: usize,
    name: &Name,
    at: u32,
    known: &mut Known,
) -> Result<(), ElabFault>
    ensures { Makes result known.new (group_meant place name.now at known.old) }
{
    check_unused(&known.outside.names, name, at)?;
    let group = group_count(known, at)?;
    let what = What::Group { text: place, group };
    add_name(alloc, &mut known.outside.names, name, what)?;
    known.groups.push(info_by_default(alloc, name)?)?;
    Ok(())
}
