//! Expressions where they stand.
ghost use Rattle.std.specs.Prelude.{◌≡◌, IfOk};
ghost use Rattle.const_eval.specs.Binding.{bound_of, constant_of};
ghost use Rattle.const_eval.specs.Scopes.{names_of};
ghost use Rattle.elab_base.specs.Gives.{Gives, lifted};
ghost use Rattle.elab_base.specs.Steps.{bound_in, number_in as number_meant, guard_in as guard_meant};

use crate::ElabFault;
use const_eval::{Bound, Scope, bind, constant, place};
use cov_base::Int;
use cov_ground::Memory;
use cov_tree::{Expr, Shared};
use std::alloc::Global;

/// An expression with its names bound.
#[tactic(auto, using(crate::proofs::Lifts::lifted_gives), unfolding(crate::specs::Steps::bound_in))]
pub fn bind_in(alloc: Global, scope: &Scope, expr: &Expr) -> Result<Bound, ElabFault>
    ensures { Gives result (bound_in scope.now expr.now) }
{
    match bind(alloc, expr, scope) {
        Ok(bound) => Ok(bound),
        Err(fault) => Err(ElabFault::from(fault)),
    }
}

/// The number of a bound expression.
#[tactic(auto, using(crate::proofs::Lifts::lifted_is))]
fn number_of(bound: &Bound, at: u32) -> Result<Int, ElabFault>
    ensures { Gives result (lifted (constant_of bound.now at)) }
{
    match constant(bound, at) {
        Ok(number) => Ok(number),
        Err(fault) => Err(ElabFault::from(fault)),
    }
}

/// The number of an expression that stands where a constant is needed.
#[tactic(auto, unfolding(crate::specs::Steps::number_in))]
pub fn number_in(alloc: Global, scope: &Scope, expr: &Expr) -> Result<Int, ElabFault>
    ensures { Gives result (number_meant scope.now expr.now) }
{
    let bound = bind_in(alloc, scope, expr)?;
    let number = number_of(&bound, place(expr))?;
    Ok(number)
}

/// A guard, where one is written.
#[tactic(auto, unfolding(crate::specs::Steps::guard_in))]
pub fn guard_in(
    alloc: Global,
    scope: &Scope,
    expr: &Option<Expr>,
) -> Result<Option<Bound>, ElabFault>
    ensures { Gives result (guard_meant scope.now expr.now) }
{
    match expr {
        None => Ok(None),
        Some(expr) => {
            let bound = bind_in(alloc, scope, expr)?;
            Ok(Some(bound))
        }
    }
}

/// A guard that several bins are to have in common, where one is written.
#[tactic(auto, unfolding(crate::specs::Steps::guard_in))]
pub fn shared_guard_in(
    alloc: Global,
    scope: &Scope,
    expr: &Option<Expr>,
) -> Result<Option<Shared<Bound>>, ElabFault>
    ensures { Gives result (guard_meant scope.now expr.now) }
{
    match expr {
        None => Ok(None),
        Some(expr) => {
            let bound = bind_in(alloc, scope, expr)?;
            Ok(Some(Shared::of(alloc, bound)?))
        }
    }
}

/// The same guard for a further bin. It copies nothing.
pub fn share_guard(guard: &Option<Shared<Bound>>) -> Result<Option<Shared<Bound>>, Memory>
    ensures { IfOk result (λ shared. shared ≡ guard.now) }
{
    match guard {
        None => Ok(None),
        Some(bound) => Ok(Some(bound.share()?)),
    }
}
