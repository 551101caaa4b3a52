//! Variables.
ghost use Rattle.std.specs.Prelude.{◌≡◌, ◌<◌, length, OnOk, nat_lt};
ghost use Rattle.cov_ground.specs.Limits.{most_signals};
ghost use Rattle.elab_base.specs.declared.fault.ElabKind.TheVariants as kinds;
ghost use Rattle.elab_base.specs.Gives.{Gives, Makes, needs};
ghost use Rattle.elab_decls.specs.Variables.{with_signal, variable};

use crate::shapes::read_shape;
use crate::{Outside, Shape};
use const_eval::Meaning;
use cov_ground::Memory;
use cov_ground::limits::MOST_SIGNALS;
use cov_tree::{Name, TypeText};
use design_data::Signal;
use elab_base::{ElabFault, ElabKind, What, add_name, check_unused};
use std::alloc::Global;

#[tactic(auto, unfolding(elab_base::specs::Gives::needs))]
fn check_signals(outside: &Outside, at: u32) -> Result<(), ElabFault>
    ensures gives { Gives result (needs (nat_lt (length outside.now.signals) most_signals) kinds.DesignLimit at) }
    ensures few { OnOk result (length outside.now.signals < most_signals) }
{
    if outside.signals.as_slice().len() >= MOST_SIGNALS {
        return Err(ElabKind::DesignLimit.at(at));
    }
    Ok(())
}

#[tactic(auto, unfolding(crate::specs::Variables::with_signal))]
fn keep_signal(
    alloc: Global,
    name: &Name,
    shape: Shape,
    outside: &mut Outside,
) -> Result<(), Memory>
    requires { length outside.old.signals < most_signals }
    ensures { OnOk result (outside.new ≡ with_signal name.now shape outside.old) }
{
    let index = outside.signals.as_slice().len() as u16;
    let what = What::Variable {
        enumeration: shape.enumeration,
    };
    add_name(alloc, &mut outside.names, name, what)?;
    outside.scope.declare(
        name.share()?,
        Meaning::Signal {
            index,
            typ: shape.typ,
            low: shape.low,
        },
    )?;
    outside.signals.push(Signal {
        name: name.share()?,
        width: shape.typ.width().get(),
        signed: shape.typ.is_signed(),
    })?;
    Ok(())
}

/// Adds a variable, unless its type, its name or the number of signals is at fault, in this order.
#[tactic(auto, unfolding(crate::specs::Variables::variable))]
pub fn add_variable(
    alloc: Global,
    typ: &TypeText,
    name: &Name,
    at: u32,
    outside: &mut Outside,
) -> Result<(), ElabFault>
    ensures { Makes result outside.new (variable typ.now name.now at outside.old) }
{
    let shape = read_shape(alloc, outside, typ, at)?;
    check_unused(&outside.names, name, at)?;
    check_signals(outside, at)?;
    keep_signal(alloc, name, shape, outside)?;
    Ok(())
}
