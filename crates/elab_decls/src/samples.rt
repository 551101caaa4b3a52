//! The arguments of a sample function.
ghost use Rattle.std.specs.Prelude.{◌≡◌, ◌<◌, length, OnOk, nat_lt};
ghost use Rattle.cov_ground.specs.Limits.{most_arguments};
ghost use Rattle.elab_base.specs.declared.fault.ElabKind.TheVariants as kinds;
ghost use Rattle.elab_base.specs.Gives.{Gives, Makes, needs};
ghost use Rattle.elab_decls.specs.Formals.{with_sample_argument, sample_argument, samples_walked};

use crate::formals::Formals;
use crate::shapes::read_shape;
use crate::{Outside, Shape};
use const_eval::Meaning;
use cov_ground::Memory;
use cov_ground::limits::{MOST_ARGUMENTS, MOST_SIGNALS};
use cov_tree::{Formal, Name};
use design_data::Signal;
use elab_base::{ElabFault, ElabKind, What, add_name, check_unused};
use std::alloc::Global;

#[tactic(auto, unfolding(elab_base::specs::Gives::needs))]
fn check_count(all: &Formals, at: u32) -> Result<(), ElabFault>
    ensures gives { Gives result (needs (nat_lt (length all.now.args) most_arguments) kinds.TooManyArgs at) }
    ensures few { OnOk result (length all.now.args < most_arguments) }
{
    if all.args.as_slice().len() >= MOST_ARGUMENTS {
        return Err(ElabKind::TooManyArgs.at(at));
    }
    Ok(())
}

#[tactic(auto, unfolding(crate::specs::Formals::with_sample_argument))]
fn keep_argument(alloc: Global, name: &Name, shape: Shape, all: &mut Formals) -> Result<(), Memory>
    requires { length all.old.args < most_arguments }
    ensures { OnOk result (all.new ≡ with_sample_argument name.now shape all.old) }
{
    let index = (MOST_SIGNALS + all.args.as_slice().len()) as u16;
    let what = What::Formal {
        by_ref: false,
        enumeration: shape.enumeration,
    };
    add_name(alloc, &mut all.names, name, what)?;
    all.inner.declare(
        name.share()?,
        Meaning::Signal {
            index,
            typ: shape.typ,
            low: shape.low,
        },
    )?;
    all.args.push(Signal {
        name: name.share()?,
        width: shape.typ.width().get(),
        signed: shape.typ.is_signed(),
    })?;
    Ok(())
}

#[tactic(auto, unfolding(crate::specs::Formals::sample_argument))]
fn add_argument(
    alloc: Global,
    outside: &Outside,
    argument: &Formal,
    all: &mut Formals,
) -> Result<(), ElabFault>
    ensures { Makes result all.new (sample_argument outside.now argument.now all.old) }
{
    check_unused(&all.names, &argument.name, argument.at)?;
    let shape = read_shape(alloc, outside, &argument.typ, argument.at)?;
    check_count(all, argument.at)?;
    keep_argument(alloc, &argument.name, shape, all)?;
    Ok(())
}

/// The arguments of a sample function, behind the formals.
#[tactic(auto, unfolding(crate::specs::Formals::samples_walked))]
pub(crate) fn walk_samples(
    alloc: Global,
    outside: &Outside,
    samples: &[Formal],
    all: &mut Formals,
) -> Result<(), ElabFault>
    ensures { Makes result all.new (samples_walked outside.now samples.now all.old) }
{
    for argument in samples {
        add_argument(alloc, outside, argument, all)?;
    }
    Ok(())
}
