//! The names that the event of an instance sees.
ghost use Rattle.std.specs.Prelude.{◌≡◌, ◌<◌, [], ◌++◌, length, IfOk, OnOk, Ok, None, nat_lt};
ghost use Rattle.name_map.specs.Names.{with_names};
ghost use Rattle.cov_ground.specs.Limits.{most_instances};
ghost use Rattle.elab_base.specs.declared.fault.ElabKind.TheVariants as kinds;
ghost use Rattle.elab_base.specs.Gives.{Gives, Makes, needs};
ghost use Rattle.cov_design.specs.Elaboration.{parts_of, Elaborates};
ghost use Rattle.cov_design.specs.Events.{formals_here, formals_if, instance_seen, seen, all_seen, named_pair, variable_pair, variables_in, levels_of, event_levels};

use crate::groups::add_group;
use crate::instances::{formals, group_of};
use crate::known::Known;
use crate::walk::nothing;
use const_eval::{Meaning, Scope};
use cov_ground::Memory;
use cov_ground::limits::MOST_INSTANCES;
use cov_tree::{Decl, DesignText, Expr, List, Name};
use design_data::Design;
use elab_base::{ElabFault, ElabKind, What, add_name};
use elab_decls::{Formals, add_enumeration, add_variable, walk_formals};
use name_map::NameMap;
use std::alloc::Global;

/// What declarations tell to an instance that is looked for by its number: what is known so far, how many instances there
/// are, and what its formals stand for.
#[derive(Drop)]
pub struct Seen {
    pub known: Known,
    pub instances: u32,
    pub formals: NameMap<Meaning>,
}

#[tactic(auto, unfolding(crate::specs::Events::formals_here))]
fn formals_at(
    alloc: Global,
    text: &[Decl],
    of_group: &Name,
    args: &[Expr],
    at: u32,
    known: &Known,
) -> Result<NameMap<Meaning>, ElabFault>
    ensures { Gives result (formals_here text.now of_group.now args.now at known.now) }
{
    let what = known.outside.names.get(of_group.as_slice()).copied();
    let place = group_of(known.groups.as_slice().len(), what, at)?;
    let all = walk_formals(alloc, &known.outside, formals(text, place.0), args, at)?;
    let Formals {
        names: _,
        inner,
        args: _,
    } = all;
    Ok(inner)
}

/// Keeps the formals where this is the instance that is looked for.
fn look(
    alloc: Global,
    text: &[Decl],
    is_wanted: bool,
    of_group: &Name,
    args: &[Expr],
    at: u32,
    all: &mut Seen,
) -> Result<(), ElabFault>
    ensures gives { Makes result all.new.formals (formals_if is_wanted text.now of_group.now args.now at all.old) }
    ensures known { all.new.known ≡ all.old.known }
    ensures instances { all.new.instances ≡ all.old.instances }
{
    if is_wanted {
        all.formals = formals_at(alloc, text, of_group, args, at, &all.known)?;
    }
    Ok(())
}

#[tactic(auto, unfolding(elab_base::specs::Gives::needs))]
fn check_instances(instances: u32, at: u32) -> Result<(), ElabFault>
    ensures gives { Gives result (needs (nat_lt instances most_instances) kinds.DesignLimit at) }
    ensures few { OnOk result (instances < most_instances) }
{
    if instances as usize >= MOST_INSTANCES {
        return Err(ElabKind::DesignLimit.at(at));
    }
    Ok(())
}

#[tactic(auto, unfolding(crate::specs::Events::instance_seen))]
fn see_instance(
    alloc: Global,
    text: &[Decl],
    instance: u32,
    of_group: &Name,
    name: &Name,
    args: &[Expr],
    at: u32,
    all: &mut Seen,
) -> Result<(), ElabFault>
    ensures { Makes result all.new (instance_seen text.now instance of_group.now name.now args.now at all.old) }
{
    check_instances(all.instances, at)?;
    let is_wanted = all.instances == instance;
    look(alloc, text, is_wanted, of_group, args, at, all)?;
    add_name(alloc, &mut all.known.outside.names, name, What::Instance)?;
    all.instances += 1;
    Ok(())
}

#[tactic(auto, unfolding(crate::specs::Events::known_seen))]
fn see(
    alloc: Global,
    text: &[Decl],
    instance: u32,
    place: usize,
    decl: &Decl,
    all: &mut Seen,
) -> Result<(), ElabFault>
    ensures { Makes result all.new (seen text.now instance place decl.now all.old) }
{
    let outside = &mut all.known.outside;
    match decl {
        Decl::Enum {
            name,
            base,
            names,
            at,
        } => add_enumeration(alloc, name, base, names.as_slice(), *at, outside),
        Decl::Var { typ, name, at } => add_variable(alloc, typ.get(), name, *at, outside),
        Decl::Group { name, at, .. } => add_group(alloc, place, name, *at, &mut all.known),
        Decl::Instance {
            group,
            name,
            args,
            at,
        } => see_instance(
            alloc,
            text,
            instance,
            group,
            name,
            args.as_slice(),
            *at,
            all,
        ),
    }
}

/// All declarations, by an instance that is looked for.
#[tactic(auto, unfolding(crate::specs::Events::all_seen))]
fn see_all(alloc: Global, text: &[Decl], instance: u32) -> Result<Seen, ElabFault>
    ensures { Gives result (all_seen text.now instance) }
{
    let mut all = Seen {
        known: nothing(alloc),
        instances: 0,
        formals: NameMap::new(alloc),
    };
    for (place, decl) in text.iter().enumerate() {
        see(alloc, text, instance, place, decl, &mut all)?;
    }
    Ok(all)
}

/// Adds a variable with what it stands for.
fn add_pair(
    alloc: Global,
    name: &Name,
    meaning: Option<Meaning>,
    names: &mut Vec<(Name, Meaning)>,
) -> Result<(), Memory>
    ensures { OnOk result (names.new.items ≡ names.old.items ++ named_pair name.now meaning) }
{
    match meaning {
        Some(meaning) => {
            names.push((name.share()?, meaning))?;
            Ok(())
        }
        None => Ok(()),
    }
}

fn add_declared(
    alloc: Global,
    scope: &Scope,
    decl: &Decl,
    names: &mut Vec<(Name, Meaning)>,
) -> Result<(), Memory>
    ensures { OnOk result (names.new.items ≡ names.old.items ++ variable_pair scope.now decl.now) }
{
    match decl {
        Decl::Var { name, .. } => add_pair(alloc, name, scope.meaning(name.as_slice()), names),
        _ => Ok(()),
    }
}

/// All variables of a text with what they stand for.
#[tactic(auto, unfolding(crate::specs::Events::variables_in))]
fn variables(alloc: Global, scope: &Scope, text: &[Decl]) -> Result<Vec<(Name, Meaning)>, Memory>
    ensures { IfOk result (λ names. names.items ≡ variables_in scope.now text.now) }
{
    let mut names = Vec::new(alloc);
    for decl in text {
        add_declared(alloc, scope, decl, &mut names)?;
    }
    Ok(names)
}

/// A scope of inner names and of outer ones.
fn scope_with(
    alloc: Global,
    inner: NameMap<Meaning>,
    outer: Vec<(Name, Meaning)>,
) -> Result<Scope, Memory>
    ensures { IfOk result (λ scope. scope ≡ record { item = None; inner = inner; outer = with_names [] outer.items }) }
{
    let mut scope = Scope::of(alloc, List::of(outer))?;
    scope.replace_inner(inner);
    Ok(scope)
}

/// The formals that were looked for, and all variables.
fn scope_seen(alloc: Global, text: &[Decl], all: Seen) -> Result<Scope, Memory>
    ensures { IfOk result (λ scope. scope ≡ levels_of text.now all) }
{
    let Seen {
        known,
        instances: _,
        formals,
    } = all;
    let outer = variables(alloc, &known.outside.scope, text)?;
    scope_with(alloc, formals, outer)
}

/// The same by the text, or a fault of it.
#[tactic(auto, unfolding(crate::specs::Events::event_levels))]
fn scope_of(alloc: Global, text: &[Decl], instance: u32) -> Result<Scope, ElabFault>
    ensures { Gives result (event_levels text.now instance) }
{
    let all = see_all(alloc, text, instance)?;
    let scope = scope_seen(alloc, text, all)?;
    Ok(scope)
}

/// What the event of an instance of a design may name: the instance's formals, and then all variables of the design's
/// text, those behind the instance too. Constants of enumerations and sample arguments are none of these.
pub fn event_scope(
    alloc: Global,
    text: &DesignText,
    design: &Design,
    instance: u32,
) -> Result<Scope, Memory>
    requires design { Elaborates text.now ≡ Ok (parts_of design.now) }
    requires instance { instance < length design.now.instances }
    ensures { IfOk result (λ scope. event_levels text.now.decls instance ≡ Ok scope) }
{
    match scope_of(alloc, text.decls.as_slice(), instance) {
        Ok(scope) => Ok(scope),
        Err(_) => Err(Memory),
    }
}
