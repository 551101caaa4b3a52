//! Filters of listed numbers.
ghost use Rattle.std.specs.Prelude.{◌≡◌, ℕ, ◌<◌, ◌≤◌, IfOk, OnOk, Some, false, Err, length, filter};
ghost use Rattle.const_eval.specs.Scopes.{names_with};
ghost use Rattle.const_eval.specs.Binding.{bound_of, first_signal as first_signal_of};
ghost use Rattle.cov_ground.specs.Limits.{most_values};
ghost use Rattle.cov_base.specs.Sets.{written};
ghost use Rattle.elab_base.specs.Gives.{Gives, GivesAs, lifted};
ghost use Rattle.elab_bins.specs.Filter.{passes as passes_test, keep_of as keep_in, no_signal, condition_in, filter_in, kept_numbers};

use const_eval::{Bound, Scope, Typ, bind_item, eval, first_signal};
use cov_base::Int;
use cov_tree::{Expr, Right};
use elab_base::{ElabFault, ElabKind};
use std::alloc::Global;
use value_bins::{Elems, FilterFault, filter_with};

/// Whether the condition holds of a number. An unknown value keeps nothing.
fn passes(term: &Bound, v: Int) -> bool
    ensures { result ≡ passes_test term.now v }
{
    match eval(term, &[], Some(v)) {
        Some(value) => value.get() != 0,
        None => false,
    }
}

#[tactic(auto, using(elab_base::proofs::Lifts::lifted_gives))]
fn bind_filter(alloc: Global, scope: &Scope, typ: Typ, expr: &Expr) -> Result<Bound, ElabFault>
    ensures { Gives result (lifted (bound_of (names_with (Some typ) scope.now) expr.now)) }
{
    match bind_item(alloc, expr, scope, typ) {
        Ok(bound) => Ok(bound),
        Err(fault) => Err(ElabFault::from(fault)),
    }
}

fn check_signals(term: &Bound) -> Result<(), ElabFault>
    ensures { Gives result (no_signal (first_signal_of false term.now)) }
{
    match first_signal(term, false) {
        None => Ok(()),
        Some(at) => Err(ElabKind::NotConstant.at(at)),
    }
}

#[tactic(auto, unfolding(crate::specs::Filter::condition_in))]
fn condition(alloc: Global, scope: &Scope, typ: Typ, expr: &Expr) -> Result<Bound, ElabFault>
    ensures { Gives result (condition_in scope.now typ expr.now) }
{
    let term = bind_filter(alloc, scope, typ, expr)?;
    check_signals(&term)?;
    Ok(term)
}

/// The condition behind `with`, where there is one.
#[tactic(auto, unfolding(crate::specs::Filter::filter_in))]
pub fn filter_of(
    alloc: Global,
    scope: &Scope,
    typ: Typ,
    right: &Right,
) -> Result<Option<Bound>, ElabFault>
    ensures { Gives result (filter_in scope.now typ (keep_in right.now)) }
{
    match right {
        Right::Ranges {
            keep: Some(expr),
            ..
        } => {
            let term = condition(alloc, scope, typ, expr)?;
            Ok(Some(term))
        }
        Right::Whole { keep, .. } => {
            let term = condition(alloc, scope, typ, keep)?;
            Ok(Some(term))
        }
        Right::Ranges { keep: None, .. } => Ok(None),
        Right::Trans(_) => Ok(None),
        Right::Default => Ok(None),
        Right::DefaultSequence => Ok(None),
    }
}

/// The numbers that pass.
pub fn passing(alloc: Global, term: &Bound, numbers: &Elems) -> Result<Elems, FilterFault>
    ensures kept { IfOk result (λ kept. written kept ≡ filter (passes_test term.now) (written numbers.now)) }
    ensures most { OnOk result (length (written numbers.now) ≤ most_values) }
    ensures too_many { (count : ℕ) → result ≡ Err (FilterFault.TooManyValues count) → most_values < length (written numbers.now) }
{
    filter_with(alloc, numbers, &|v: Int| passes(term, v))
}

#[tactic(auto, using(crate::proofs::Filters::few_kept))]
fn filtered(alloc: Global, term: &Bound, numbers: &Elems, at: u32) -> Result<Elems, ElabFault>
    ensures { GivesAs written result (kept_numbers (Some term.now) (written numbers.now) at) }
{
    match passing(alloc, term, numbers) {
        Ok(kept) => Ok(kept),
        Err(FilterFault::TooManyValues { .. }) => Err(ElabKind::TooManyValues.at(at)),
        Err(FilterFault::Memory) => Err(ElabFault::Memory),
    }
}

/// The listed numbers that pass the filter, where there is one.
#[tactic(auto, unfolding(crate::specs::Filter::kept_numbers))]
pub fn keep_numbers(
    alloc: Global,
    keep: &Option<Bound>,
    numbers: &Elems,
    at: u32,
) -> Result<Elems, ElabFault>
    ensures { GivesAs written result (kept_numbers keep.now (written numbers.now) at) }
{
    match keep {
        Some(term) => filtered(alloc, term, numbers, at),
        None => Ok(Elems::of(Vec::from_slice(alloc, numbers.as_slice())?)),
    }
}
