//! Instances of groups.
ghost use Rattle.std.specs.Prelude.{◌≡◌, ◌<◌, length, OnOk, IfOk, nat_lt};
ghost use Rattle.cov_ground.specs.Limits.{most_instances};
ghost use Rattle.elab_base.specs.declared.fault.ElabKind.TheVariants as kinds;
ghost use Rattle.elab_base.specs.Gives.{Gives, Makes, needs};
ghost use Rattle.elab_decls.specs.Formals.{args_fit};
ghost use Rattle.cov_design.specs.Instances.{formals_in, samples_in, members_in, formals_at, samples_at, members_at, group_meant, entered, body_walked, with_instance, instance_of, instance};

use crate::groups::with_options;
use crate::known::Known;
use const_eval::Meaning;
use cov_ground::Memory;
use cov_ground::limits::MOST_INSTANCES;
use cov_options::Options;
use cov_tree::{Decl, Expr, Formal, List, Member, Name};
use design_data::{InstInfo, Signal};
use elab_base::{ElabFault, ElabKind, What, add_name, check_unused};
use elab_decls::{Formals, Outside, fits, read_formals, read_options, remarks};
use elab_members::{Counts, DefaultNames, Inside, Items, inside_of, walk_members};
use name_map::NameMap;
use std::alloc::Global;
use std::mem;

/// The options of a group at one of its instances, and the items.
#[derive(Drop)]
pub struct Body {
    pub options: Options,
    pub items: Items,
}

// ---- the text of a group

fn formals_of(decl: &Decl) -> &[Formal]
    ensures { result.now ≡ formals_in decl.now }
{
    match decl {
        Decl::Group { formals, .. } => formals.as_slice(),
        _ => &[],
    }
}

fn samples_of(decl: &Decl) -> &[Formal]
    ensures { result.now ≡ samples_in decl.now }
{
    match decl {
        Decl::Group { args, .. } => args.as_slice(),
        _ => &[],
    }
}

fn members_of(decl: &Decl) -> &[Member]
    ensures { result.now ≡ members_in decl.now }
{
    match decl {
        Decl::Group { members, .. } => members.as_slice(),
        _ => &[],
    }
}

#[tactic(auto, unfolding(crate::specs::Instances::formals_at))]
pub(crate) fn formals(text: &[Decl], place: usize) -> &[Formal]
    ensures { result.now ≡ formals_at text.now place }
{
    match text.get(place) {
        Some(decl) => formals_of(decl),
        None => &[],
    }
}

#[tactic(auto, unfolding(crate::specs::Instances::samples_at))]
fn samples(text: &[Decl], place: usize) -> &[Formal]
    ensures { result.now ≡ samples_at text.now place }
{
    match text.get(place) {
        Some(decl) => samples_of(decl),
        None => &[],
    }
}

#[tactic(auto, unfolding(crate::specs::Instances::members_at))]
fn members(text: &[Decl], place: usize) -> &[Member]
    ensures { result.now ≡ members_at text.now place }
{
    match text.get(place) {
        Some(decl) => members_of(decl),
        None => &[],
    }
}

// ---- instances

#[tactic(auto, unfolding(crate::specs::Instances::group_meant, elab_base::specs::Gives::needs))]
pub(crate) fn group_of(
    groups: usize,
    what: Option<What>,
    at: u32,
) -> Result<(usize, u32), ElabFault>
    ensures gives { Gives result (group_meant groups what at) }
    ensures below { IfOk result (λ place. place.1 < groups) }
{
    match what {
        Some(What::Group { text, group }) => {
            if group as usize >= groups {
                return Err(ElabKind::UnknownType.at(at));
            }
            Ok((text, group))
        }
        _ => Err(ElabKind::UnknownType.at(at)),
    }
}

#[tactic(auto, unfolding(elab_base::specs::Gives::needs))]
fn check_args(formals: &[Formal], args: &[Expr], at: u32) -> Result<(), ElabFault>
    ensures { Gives result (needs (args_fit formals.now args.now) kinds.ArgCount at) }
{
    if !fits(formals, args) {
        return Err(ElabKind::ArgCount.at(at));
    }
    Ok(())
}

#[tactic(auto, unfolding(elab_base::specs::Gives::needs))]
fn check_instances(known: &Known, at: u32) -> Result<(), ElabFault>
    ensures { Gives result (needs (nat_lt (length known.now.instances) most_instances) kinds.DesignLimit at) }
{
    if known.instances.as_slice().len() >= MOST_INSTANCES {
        return Err(ElabKind::DesignLimit.at(at));
    }
    Ok(())
}

/// The options and the items of a group behind the names of an instance.
#[tactic(auto, using(elab_members::proofs::Heads::inside_range), unfolding(crate::specs::Instances::body_walked))]
fn walk_inside(
    alloc: Global,
    outside: &mut Outside,
    names: NameMap<What>,
    counts: Counts,
    members: &[Member],
    defaults: &mut DefaultNames,
) -> Result<Body, ElabFault>
    ensures gives { Gives result (body_walked outside.old names counts members.now) }
    ensures same { outside.new ≡ outside.old }
{
    let options = read_options(alloc, &mut outside.scope, members)?;
    let inside = inside_of(alloc, names, options, members)?;
    let items = walk_members(alloc, outside, &inside, counts, members, defaults)?;
    let Inside {
        names: _,
        options,
        intersected: _,
        points: _,
    } = inside;
    Ok(Body { options, items })
}

/// The same where what the names stand for is entered into the scope first, and left afterwards.
fn walk_body(
    alloc: Global,
    outside: &mut Outside,
    names: NameMap<What>,
    inner: NameMap<Meaning>,
    counts: Counts,
    members: &[Member],
    defaults: &mut DefaultNames,
) -> Result<Body, ElabFault>
    ensures gives { Gives result (body_walked (entered outside.old inner) names counts members.now) }
    ensures same { outside.new ≡ outside.old }
{
    let before = outside.scope.replace_inner(inner);
    let body = walk_inside(alloc, outside, names, counts, members, defaults);
    outside.scope.replace_inner(before);
    body
}

/// What is known of the group and of the instance.
#[tactic(auto, unfolding(crate::specs::Instances::with_instance))]
fn keep_instance(
    alloc: Global,
    name: &Name,
    of_group: &Name,
    group: u32,
    args: List<Signal>,
    body: Body,
    known: &mut Known,
) -> Result<(), Memory>
    requires { group < length known.old.groups }
    ensures { OnOk result (known.new ≡ with_instance name.now of_group.now group args body known.old) }
{
    let Body { options, items } = body;
    add_name(alloc, &mut known.outside.names, name, What::Instance)?;
    let groups = mem::replace(&mut known.groups, List::new(alloc));
    known.groups = with_options(alloc, groups, group, of_group, &options)?;
    let Items {
        names: _,
        items,
        decls: _,
        counts,
    } = items;
    known.instances.push(InstInfo {
        name: name.share()?,
        group,
        weight: options.weight,
        goal: options.goal,
        at_least: options.at_least,
        print: options.per_instance == 1,
        remarks: remarks(&options)?,
        args,
        items,
    })?;
    known.counts = counts;
    Ok(())
}

#[tactic(auto, unfolding(crate::specs::Instances::instance_of))]
fn add_instance_of(
    alloc: Global,
    text: &[Decl],
    place: (usize, u32),
    of_group: &Name,
    name: &Name,
    args: &[Expr],
    at: u32,
    known: &mut Known,
    defaults: &mut DefaultNames,
) -> Result<(), ElabFault>
    requires { place.1 < length known.old.groups }
    ensures { Makes result known.new (instance_of text.now place of_group.now name.now args.now at known.old) }
{
    let all = read_formals(
        alloc,
        &known.outside,
        formals(text, place.0),
        samples(text, place.0),
        args,
        at,
    )?;
    let Formals {
        names,
        inner,
        args: sample_args,
    } = all;
    let body = walk_body(
        alloc,
        &mut known.outside,
        names,
        inner,
        known.counts,
        members(text, place.0),
        defaults,
    )?;
    keep_instance(alloc, name, of_group, place.1, sample_args, body, known)?;
    Ok(())
}

/// Adds an instance of a group: its name, its group, the number of its arguments and the number of instances are tried
/// first, then its formals with their arguments, the arguments of the sample function, the group's options, and its
/// members are walked.
#[tactic(auto, unfolding(crate::specs::Instances::instance))]
pub(crate) fn add_instance(
    alloc: Global,
    text: &[Decl],
    of_group: &Name,
    name: &Name,
    args: &[Expr],
    at: u32,
    known: &mut Known,
    defaults: &mut DefaultNames,
) -> Result<(), ElabFault>
    ensures { Makes result known.new (instance text.now of_group.now name.now args.now at known.old) }
{
    check_unused(&known.outside.names, name, at)?;
    let what = known.outside.names.get(of_group.as_slice()).copied();
    let place = group_of(known.groups.as_slice().len(), what, at)?;
    check_args(formals(text, place.0), args, at)?;
    check_instances(known, at)?;
    add_instance_of(
        alloc, text, place, of_group, name, args, at, known, defaults,
    )
}
