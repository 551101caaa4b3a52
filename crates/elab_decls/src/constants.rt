//! The constants of an enumeration.
ghost use Rattle.std.specs.Prelude.{◌≡◌, pos, ◌+ℤ◌, [], ◌∷◌, ◌++◌, IfOk, OnOk, Some, None, if◌then◌else◌};
ghost use Rattle.elab_base.specs.Gives.{Gives, Makes};
ghost use Rattle.elab_decls.specs.Shapes.{is_number};
ghost use Rattle.elab_decls.specs.Enumerations.{value_in, valued, known_constant, constant, constants_walked, MakesWith};

use crate::Outside;
use crate::numbers::Numbers;
use const_eval::{Meaning, Scope, Typ};
use cov_base::{Int, highest_of, lowest_of};
use cov_ground::Memory;
use cov_tree::{Expr, List, Name};
use elab_base::{ElabFault, ElabKind, What, add_name, check_unused, number_in};
use std::alloc::Global;

/// The constants of an enumeration on the way, and the value of the next one where none is written.
#[derive(Drop)]
pub struct Constants {
    pub constants: List<(Name, Int)>,
    pub values: Numbers,
    pub next: i128,
}

/// The value of a constant.
#[tactic(auto, unfolding(crate::specs::Enumerations::value_in))]
fn value(alloc: Global, scope: &Scope, next: i128, expr: &Option<Expr>) -> Result<i128, ElabFault>
    ensures { Gives result (value_in scope.now next expr.now) }
{
    match expr {
        None => Ok(next),
        Some(expr) => {
            let number = number_in(alloc, scope, expr)?;
            Ok(number.get())
        }
    }
}

/// The number, where it is one of the type.
fn number_of(typ: Typ, value: i128) -> Option<Int>
    ensures { result ≡ (if is_number typ value then Some value else None) }
{
    let low = lowest_of(typ.width(), typ.is_signed()).get();
    let high = highest_of(typ.width(), typ.is_signed()).get();
    if low <= value && value <= high {
        Some(Int::of(value))
    } else {
        None
    }
}

/// The value as a new one of the base.
#[tactic(auto, unfolding(elab_base::specs::Gives::needs, crate::specs::Enumerations::valued))]
fn add_value(typ: Typ, value: i128, at: u32, values: &mut Numbers) -> Result<Int, ElabFault>
    ensures gives { Gives result (valued typ values.old value at) }
    ensures added { IfOk result (λ v. values.new ≡ values.old ++ v ∷ []) }
{
    let Some(number) = number_of(typ, value) else {
        return Err(ElabKind::BadEnum.at(at));
    };
    let is_new = values.insert(value)?;
    if !is_new {
        return Err(ElabKind::BadEnum.at(at));
    }
    Ok(number)
}

/// Makes a constant known to the expressions behind it.
#[tactic(auto, unfolding(crate::specs::Enumerations::known_constant))]
fn declare_constant(
    alloc: Global,
    name: &Name,
    value: Int,
    typ: Typ,
    outside: &mut Outside,
) -> Result<(), Memory>
    ensures { OnOk result (outside.new ≡ known_constant name.now value typ outside.old) }
{
    add_name(alloc, &mut outside.names, name, What::Constant)?;
    outside.scope.declare(
        name.share()?,
        Meaning::Const {
            value,
            typ,
            low: None,
        },
    )?;
    Ok(())
}

/// Lists a constant, and says which value the next one has where none is written.
fn list_constant(alloc: Global, name: &Name, value: Int, all: &mut Constants) -> Result<(), Memory>
    ensures constants { OnOk result (all.new.constants ≡ all.old.constants ++ (name.now, value) ∷ []) }
    ensures values { all.new.values ≡ all.old.values }
    ensures next { OnOk result (all.new.next ≡ value +ℤ pos 1) }
{
    all.constants.push((name.share()?, value))?;
    all.next = value.get() + 1;
    Ok(())
}

#[tactic(auto, unfolding(crate::specs::Enumerations::constant))]
fn add_constant(
    alloc: Global,
    typ: Typ,
    at: u32,
    named: &(Name, Option<Expr>),
    outside: &mut Outside,
    all: &mut Constants,
) -> Result<(), ElabFault>
    ensures { Makes result (outside.new, all.new) (constant typ at named.now (outside.old, all.old)) }
{
    check_unused(&outside.names, &named.0, at)?;
    let written = value(alloc, &outside.scope, all.next, &named.1)?;
    let value = add_value(typ, written, at, &mut all.values)?;
    declare_constant(alloc, &named.0, value, typ, outside)?;
    list_constant(alloc, &named.0, value, all)?;
    Ok(())
}

/// The constants of an enumeration at `at` with this base, from the left.
#[tactic(auto, unfolding(crate::specs::Enumerations::constants_walked))]
pub(crate) fn walk_constants(
    alloc: Global,
    typ: Typ,
    at: u32,
    names: &[(Name, Option<Expr>)],
    outside: &mut Outside,
) -> Result<Constants, ElabFault>
    ensures { MakesWith result outside.new (constants_walked typ at names.now outside.old) }
{
    let mut all = Constants {
        constants: List::new(alloc),
        values: Numbers::new(alloc),
        next: 0,
    };
    for named in names {
        add_constant(alloc, typ, at, named, outside, &mut all)?;
    }
    Ok(all)
}
