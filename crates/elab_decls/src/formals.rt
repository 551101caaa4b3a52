//! The formals of an instance, and the arguments of its sample function.
ghost use Rattle.std.specs.Prelude.{◌≡◌, slice_get, option_copied, is_some, OnOk, Some};
ghost use Rattle.std.specs.List.{list_all};
ghost use Rattle.const_eval.specs.declared.meaning.Meaning.TheVariants.{Const};
ghost use Rattle.const_eval.specs.Values.{cut_to as cut_to_typ};
ghost use Rattle.elab_base.specs.Gives.{Gives, Makes, each_at};
ghost use Rattle.elab_decls.specs.Formals.{formal_meant, argument_or, given_meant, with_formal, formal as formal_of, args_fit, formals_walked, samples_walked, formals_of};

use crate::refs::ref_meaning;
use crate::samples::walk_samples;
use crate::shapes::read_shape;
use crate::{Outside, Shape};
use const_eval::{Meaning, cut_to};
use cov_base::Int;
use cov_ground::Memory;
use cov_tree::{Expr, Formal, List};
use design_data::Signal;
use elab_base::{ElabFault, ElabKind, What, add_name, bind_in, check_unused, number_in};
use name_map::NameMap;
use std::alloc::Global;

/// The formals of an instance and the arguments of its sample function: their names, what they stand for in expressions,
/// and the arguments of the sample function in order.
#[derive(Drop)]
pub struct Formals {
    pub names: NameMap<What>,
    pub inner: NameMap<Meaning>,
    pub args: List<Signal>,
}

/// A number cut to the type of a formal.
fn constant(shape: &Shape, number: Int) -> Meaning
    ensures { result ≡ Const (cut_to_typ shape.now.typ number) shape.now.typ (Some shape.now.low) }
{
    Meaning::Const {
        value: cut_to(shape.typ, number),
        typ: shape.typ,
        low: Some(shape.low),
    }
}

/// What a formal stands for, by its argument or its default.
#[tactic(auto, unfolding(crate::specs::Formals::formal_meant))]
fn formal_meaning(
    alloc: Global,
    outside: &Outside,
    by_ref: bool,
    shape: &Shape,
    expr: &Expr,
) -> Result<Meaning, ElabFault>
    ensures { Gives result (formal_meant outside.now by_ref shape.now expr.now) }
{
    if by_ref {
        bind_in(alloc, &outside.scope, expr)?;
        ref_meaning(outside, shape, expr)
    } else {
        let number = number_in(alloc, &outside.scope, expr)?;
        Ok(constant(shape, number))
    }
}

/// The argument of a formal, or else its default.
fn argument<'a>(args: &'a [Expr], place: usize, default: &'a Option<Expr>) -> Option<&'a Expr>
    ensures { option_copied result ≡ argument_or (slice_get args.now place) default.now }
{
    match args.get(place) {
        Some(argument) => Some(argument),
        None => default.as_ref(),
    }
}

fn given_meaning(
    alloc: Global,
    outside: &Outside,
    by_ref: bool,
    shape: &Shape,
    given: Option<&Expr>,
    at: u32,
) -> Result<Meaning, ElabFault>
    ensures { Gives result (given_meant outside.now by_ref shape.now (option_copied given.entry) at) }
{
    match given {
        None => Err(ElabKind::ArgCount.at(at)),
        Some(expr) => formal_meaning(alloc, outside, by_ref, shape, expr),
    }
}

#[tactic(auto, unfolding(crate::specs::Formals::with_formal))]
fn keep_formal(
    alloc: Global,
    formal: &Formal,
    shape: &Shape,
    meaning: Meaning,
    all: &mut Formals,
) -> Result<(), Memory>
    ensures { OnOk result (all.new ≡ with_formal formal.now.by_ref formal.now.name shape.now meaning all.old) }
{
    let what = What::Formal {
        by_ref: formal.by_ref,
        enumeration: shape.enumeration,
    };
    add_name(alloc, &mut all.names, &formal.name, what)?;
    all.inner.declare(formal.name.share()?, meaning)?;
    Ok(())
}

#[tactic(auto, unfolding(crate::specs::Formals::formal))]
fn add_formal(
    alloc: Global,
    outside: &Outside,
    args: &[Expr],
    at: u32,
    place: usize,
    formal: &Formal,
    all: &mut Formals,
) -> Result<(), ElabFault>
    ensures { Makes result all.new (formal_of outside.now args.now at place formal.now all.old) }
{
    check_unused(&all.names, &formal.name, formal.at)?;
    let shape = read_shape(alloc, outside, &formal.typ, formal.at)?;
    let given = argument(args, place, &formal.default);
    let meaning = given_meaning(alloc, outside, formal.by_ref, &shape, given, at)?;
    keep_formal(alloc, formal, &shape, meaning, all)?;
    Ok(())
}

fn has_default(formal: &Formal) -> bool
    ensures { result ≡ is_some formal.now.default }
{
    formal.default.is_some()
}

fn have_defaults(formals: &[Formal]) -> bool
    ensures { result ≡ list_all (λ f. is_some f.default) formals.now }
{
    formals.iter().all(|formal| has_default(formal))
}

/// Whether there are no more arguments than formals, and an argument for each formal without a default.
#[tactic(auto, unfolding(crate::specs::Formals::args_fit))]
pub fn fits(formals: &[Formal], args: &[Expr]) -> bool
    ensures { result ≡ args_fit formals.now args.now }
{
    args.len() <= formals.len() && have_defaults(&formals[args.len()..])
}

/// The formals of an instance at `at` with their arguments.
#[tactic(auto, unfolding(crate::specs::Formals::formals_walked))]
pub fn walk_formals(
    alloc: Global,
    outside: &Outside,
    formals: &[Formal],
    args: &[Expr],
    at: u32,
) -> Result<Formals, ElabFault>
    ensures { Gives result (formals_walked outside.now args.now at formals.now) }
{
    let mut all = Formals {
        names: NameMap::new(alloc),
        inner: NameMap::new(alloc),
        args: List::new(alloc),
    };
    for (place, formal) in formals.iter().enumerate() {
        add_formal(alloc, outside, args, at, place, formal, &mut all)?;
    }
    Ok(all)
}

/// The formals of an instance at `at` with their arguments, and then the arguments of the sample function.
#[tactic(auto, unfolding(crate::specs::Formals::formals_of))]
pub fn read_formals(
    alloc: Global,
    outside: &Outside,
    formals: &[Formal],
    samples: &[Formal],
    args: &[Expr],
    at: u32,
) -> Result<Formals, ElabFault>
    ensures { Gives result (formals_of outside.now formals.now samples.now args.now at) }
{
    let mut all = walk_formals(alloc, outside, formals, args, at)?;
    walk_samples(alloc, outside, samples, &mut all)?;
    Ok(all)
}
