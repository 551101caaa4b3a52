//! Enumerations.
ghost use Rattle.std.specs.Prelude.{◌≡◌, ◌<◌, length, OnOk, IfOk};
ghost use Rattle.cov_ground.specs.Limits.{longest_design};
ghost use Rattle.elab_base.specs.Gives.{Gives, Makes};
ghost use Rattle.elab_decls.specs.Enumerations.{base_shape, type_named, with_enumeration, enumeration};

use crate::constants::{Constants, walk_constants};
use crate::shapes::{plain, read_shape};
use crate::{Enumeration, Outside, Shape};
use bit_width::Width;
use cov_ground::Memory;
use cov_ground::limits::LONGEST_DESIGN;
use cov_tree::{Expr, Name, TypeText};
use elab_base::{ElabFault, ElabKind, What, add_name, check_unused};
use std::alloc::Global;

/// How many bits an `int` has.
const INT_BITS: u8 = 32;

/// The base of an enumeration; it is `int` where none is written.
#[tactic(auto, unfolding(crate::specs::Enumerations::base_shape))]
fn read_base(
    alloc: Global,
    outside: &Outside,
    base: &Option<TypeText>,
    at: u32,
) -> Result<Shape, ElabFault>
    ensures { Gives result (base_shape outside.now base.now at) }
{
    match base {
        None => Ok(plain(Width::of(INT_BITS), true)),
        Some(typ) => read_shape(alloc, outside, typ, at),
    }
}

#[tactic(auto, unfolding(crate::specs::Enumerations::type_named, elab_base::specs::Gives::needs))]
fn name_type(alloc: Global, name: &Name, at: u32, outside: &mut Outside) -> Result<(), ElabFault>
    ensures { Makes result outside.new (type_named name.now at outside.old) }
{
    let place = outside.enumerations.as_slice().len();
    if place >= LONGEST_DESIGN as usize {
        return Err(ElabKind::DesignLimit.at(at));
    }
    let what = What::Type {
        enumeration: place as u32,
    };
    add_name(alloc, &mut outside.names, name, what)?;
    Ok(())
}

fn keep_enumeration(shape: Shape, all: Constants, outside: &mut Outside) -> Result<(), Memory>
    ensures { OnOk result (outside.new ≡ with_enumeration shape (outside.old, all)) }
{
    let Constants {
        constants,
        values: _,
        next: _,
    } = all;
    outside.enumerations.push(Enumeration {
        typ: shape.typ,
        low: shape.low,
        constants,
    })?;
    Ok(())
}

/// Adds an enumeration at `at`, unless its name, its base, or one of its constants is at fault, in this order; of a
/// constant its name, the expression of its value, and the value are tried before the next constant.
#[tactic(auto, unfolding(crate::specs::Enumerations::enumeration))]
pub fn add_enumeration(
    alloc: Global,
    name: &Name,
    base: &Option<TypeText>,
    names: &[(Name, Option<Expr>)],
    at: u32,
    outside: &mut Outside,
) -> Result<(), ElabFault>
    ensures { Makes result outside.new (enumeration name.now base.now names.now at outside.old) }
{
    check_unused(&outside.names, name, at)?;
    let shape = read_base(alloc, outside, base, at)?;
    name_type(alloc, name, at, outside)?;
    let all = walk_constants(alloc, shape.typ, at, names, outside)?;
    keep_enumeration(shape, all, outside)?;
    Ok(())
}
