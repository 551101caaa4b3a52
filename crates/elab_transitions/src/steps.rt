//! Steps of sequences.
ghost use Rattle.std.specs.Prelude.{◌≡◌, IfOk};
ghost use Rattle.elab_base.specs.Gives.{Gives, Makes};
ghost use Rattle.elab_transitions.specs.Steps.{capped as capped_count, is_repetition as is_repetition_of, ends_of, repeat_of, step_of, with_step, steps_of, with_sequence, sequences_of};

use const_eval::Scope;
use cov_base::Int;
use cov_tree::{Expr, List, Step, Times};
use elab_base::{ElabFault, ElabKind, number_in};
use elab_values::{Domain, Listed, elements_of};
use std::alloc::Global;
use trans_seq::Repeat;

/// A step with its expressions computed.
#[derive(Drop)]
pub(crate) struct ListedStep {
    pub(crate) elements: List<Listed>,
    pub(crate) repeat: Repeat,
}

/// A count that a repetition holds: a larger one than a `u32` has far too many cells in any case.
fn capped(count: Int) -> u32
    ensures { result ≡ capped_count count }
{
    let size = count.get().unsigned_abs();
    if size > u32::MAX as u128 {
        u32::MAX
    } else {
        size as u32
    }
}

fn is_repetition(low: Int, high: Int) -> bool
    ensures { result ≡ is_repetition_of low high }
{
    1 <= low.get() && low.get() <= high.get()
}

#[tactic(auto, unfolding(crate::specs::Steps::ends_of))]
fn ends(
    alloc: Global,
    scope: &Scope,
    low: &Expr,
    high: &Expr,
    at: u32,
) -> Result<(u32, u32), ElabFault>
    ensures { Gives result (ends_of scope.now low.now high.now at) }
{
    let low = number_in(alloc, scope, low)?;
    let high = number_in(alloc, scope, high)?;
    ElabKind::BadRepeat.unless(is_repetition(low, high), at)?;
    Ok((capped(low), capped(high)))
}

#[tactic(auto, unfolding(crate::specs::Steps::repeat_of))]
fn repeat(alloc: Global, scope: &Scope, times: &Times, at: u32) -> Result<Repeat, ElabFault>
    ensures { Gives result (repeat_of scope.now times.now at) }
{
    match times {
        Times::Once => Ok(Repeat::Once),
        Times::Consec { low, high } => {
            let (low, high) = ends(alloc, scope, low.get(), high.get(), at)?;
            Ok(Repeat::Consec { low, high })
        }
        Times::Goto { low, high } => {
            let (low, high) = ends(alloc, scope, low.get(), high.get(), at)?;
            Ok(Repeat::Goto { low, high })
        }
        Times::NonConsec { low, high } => {
            let (low, high) = ends(alloc, scope, low.get(), high.get(), at)?;
            Ok(Repeat::NonConsec { low, high })
        }
    }
}

#[tactic(auto, unfolding(crate::specs::Steps::step_of))]
fn listed_step(
    alloc: Global,
    scope: &Scope,
    domain: &Domain,
    wildcard: bool,
    step: &Step,
) -> Result<ListedStep, ElabFault>
    ensures { Gives result (step_of scope.now domain.now wildcard step.now) }
{
    let elements = elements_of(alloc, scope, domain, wildcard, step.elems.as_slice())?;
    let repeat = repeat(alloc, scope, &step.times, step.at)?;
    Ok(ListedStep { elements, repeat })
}

#[tactic(auto, unfolding(crate::specs::Steps::with_step))]
fn add_step(
    alloc: Global,
    scope: &Scope,
    domain: &Domain,
    wildcard: bool,
    step: &Step,
    steps: &mut List<ListedStep>,
) -> Result<(), ElabFault>
    ensures { Makes result steps.new (with_step scope.now domain.now wildcard step.now steps.old) }
{
    let next = listed_step(alloc, scope, domain, wildcard, step)?;
    steps.push(next)?;
    Ok(())
}

#[tactic(auto, unfolding(crate::specs::Steps::steps_of))]
fn listed_steps(
    alloc: Global,
    scope: &Scope,
    domain: &Domain,
    wildcard: bool,
    sequence: &[Step],
) -> Result<List<ListedStep>, ElabFault>
    ensures { Gives result (steps_of scope.now domain.now wildcard sequence.now) }
{
    let mut steps = List::new(alloc);
    for step in sequence {
        add_step(alloc, scope, domain, wildcard, step, &mut steps)?;
    }
    Ok(steps)
}

#[tactic(auto, unfolding(crate::specs::Steps::with_sequence))]
fn add_sequence(
    alloc: Global,
    scope: &Scope,
    domain: &Domain,
    wildcard: bool,
    sequence: &List<Step>,
    sequences: &mut List<List<ListedStep>>,
) -> Result<(), ElabFault>
    ensures { Makes result sequences.new (with_sequence scope.now domain.now wildcard sequence.now sequences.old) }
{
    let next = listed_steps(alloc, scope, domain, wildcard, sequence.as_slice())?;
    sequences.push(next)?;
    Ok(())
}

/// The steps of a declaration's sequences, in order: of each step first its elements, then its repetition, which is
/// `BadRepeat` at the step unless 1 <= low <= high. A count above 2^32 - 1 stands as that: its sequence has too many cells
/// in any case.
#[tactic(auto, unfolding(crate::specs::Steps::sequences_of))]
pub(crate) fn listed_sequences(
    alloc: Global,
    scope: &Scope,
    domain: &Domain,
    wildcard: bool,
    written: &[List<Step>],
) -> Result<List<List<ListedStep>>, ElabFault>
    ensures { Gives result (sequences_of scope.now domain.now wildcard written.now) }
{
    let mut sequences = List::new(alloc);
    for sequence in written {
        add_sequence(alloc, scope, domain, wildcard, sequence, &mut sequences)?;
    }
    Ok(sequences)
}
