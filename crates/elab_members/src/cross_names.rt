//! The names of crosses.
ghost use Rattle.std.specs.Prelude.{◌≡◌, ◌+◌, [], length, OnOk, IfOk};
ghost use Rattle.name_map.specs.Names.{meaning_of};
ghost use Rattle.elab_base.specs.Gives.{Gives};
ghost use Rattle.elab_crosses.specs.Axes.{is_signal as stands_for_signal, is_ref as is_by_ref, is_variable as is_of_variable};
ghost use Rattle.elab_members.specs.CrossNames.{around_cross, cross_name as name_meant, makes_point as is_made, with_implicit, implicit_names as names_made, is_free as is_free_of, name_behind as name_meant_behind, name_of_cross};

use crate::defaults::DefaultNames;
use crate::items::{Inside, Items, index_of};
use cov_ground::Memory;
use cov_tree::{CrossDecl, Name};
use elab_base::{ElabFault, ElabKind, What};
use elab_decls::Outside;
use name_map::NameMap;
use std::alloc::Global;

fn is_ref(what: What) -> bool
    ensures { result ≡ is_by_ref what }
{
    match what {
        What::Formal { by_ref, .. } => by_ref,
        _ => false,
    }
}

fn is_variable(what: What) -> bool
    ensures { result ≡ is_of_variable what }
{
    match what {
        What::Variable { .. } => true,
        _ => false,
    }
}

fn is_signal(formals: &NameMap<What>, design: &NameMap<What>, name: &Name) -> bool
    ensures { result ≡ stands_for_signal (meaning_of formals.now name.now) (meaning_of design.now name.now) }
{
    match formals.get(name.as_slice()) {
        Some(formal) => is_ref(*formal),
        None => match design.get(name.as_slice()) {
            Some(found) => is_variable(*found),
            None => false,
        },
    }
}

/// Whether a cross makes a point of this name.
fn makes_point(outside: &Outside, inside: &Inside, items: &Items, name: &Name) -> bool
    ensures { result ≡ is_made (around_cross outside.now inside.now items.now) name.now }
{
    items.names.get(name.as_slice()).is_none()
        && inside.points.get(name.as_slice()).is_none()
        && is_signal(&inside.names, &outside.names, name)
}

/// Adds the name of a point that the cross makes.
fn add_implicit_name(
    outside: &Outside,
    inside: &Inside,
    items: &Items,
    name: &Name,
    made: &mut NameMap<()>,
) -> Result<(), Memory>
    ensures { OnOk result (made.new ≡ with_implicit (around_cross outside.now inside.now items.now) name.now made.old) }
{
    if makes_point(outside, inside, items, name) {
        made.declare(name.share()?, ())?;
    }
    Ok(())
}

/// The names of the points that a cross of these names makes.
fn implicit_names(
    alloc: Global,
    outside: &Outside,
    inside: &Inside,
    items: &Items,
    names: &[Name],
) -> Result<NameMap<()>, Memory>
    ensures { IfOk result (λ made. made ≡ names_made (around_cross outside.now inside.now items.now) names.now []) }
{
    let mut made = NameMap::new(alloc);
    for name in names {
        add_implicit_name(outside, inside, items, name, &mut made)?;
    }
    Ok(made)
}

/// The name of a cross behind so many items.
fn name_of(
    alloc: Global,
    label: &Option<Name>,
    before: usize,
    defaults: &mut DefaultNames,
) -> Result<Name, Memory>
    ensures { IfOk result (λ name. name ≡ name_meant label.now before) }
{
    match label {
        Some(label) => label.share(),
        None => defaults.cross(alloc, before),
    }
}

/// How many items stand before a cross, with the points that it makes.
fn count_before(items: &Items, made: &NameMap<()>) -> Result<usize, Memory>
    ensures { IfOk result (λ count. count ≡ length items.now.items + length made.now) }
{
    let here = index_of(items.items.as_slice().len())?;
    let more = index_of(made.len())?;
    Ok(here as usize + more as usize)
}

fn is_free(names: &NameMap<What>, made: &NameMap<()>, name: &Name) -> bool
    ensures { result ≡ is_free_of names.now made.now name.now }
{
    names.get(name.as_slice()).is_none() && made.get(name.as_slice()).is_none()
}

/// The name of a cross that makes points of these names, unless an item before it has the name or one of the points.
#[tactic(auto, unfolding(crate::specs::CrossNames::name_behind))]
fn name_behind(
    alloc: Global,
    outside: &Outside,
    inside: &Inside,
    cross: &CrossDecl,
    items: &Items,
    made: &NameMap<()>,
    defaults: &mut DefaultNames,
) -> Result<Name, ElabFault>
    ensures { Gives result (name_meant_behind (around_cross outside.now inside.now items.now) made.now cross.now) }
{
    let before = count_before(items, made)?;
    let name = name_of(alloc, &cross.label, before, defaults)?;
    ElabKind::DuplicateName.unless(is_free(&items.names, made, &name), cross.at)?;
    Ok(name)
}

/// The name of a cross.
pub(crate) fn name_cross(
    alloc: Global,
    outside: &Outside,
    inside: &Inside,
    cross: &CrossDecl,
    items: &Items,
    defaults: &mut DefaultNames,
) -> Result<Name, ElabFault>
    ensures { Gives result (name_of_cross (around_cross outside.now inside.now items.now) cross.now) }
{
    let made = implicit_names(alloc, outside, inside, items, cross.points.as_slice())?;
    name_behind(alloc, outside, inside, cross, items, &made, defaults)
}
