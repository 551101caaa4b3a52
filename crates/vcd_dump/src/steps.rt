//! The steps of a dump.
ghost use Rattle.std.specs.Prelude.{◌≡◌, ◌++◌, ◌∷◌, [], ◌<◌, length, MatchOption, IfSome, IfOk, OnOk};
ghost use Rattle.vcd_dump.specs.Body.{changes_of, steps_begun, steps_of};
ghost use Rattle.vcd_dump.specs.Packing.{items_in};

use crate::packed::Packed;
use crate::packing::{Item, next_item};
use crate::{Change, DumpStep};
use cov_ground::Memory;
use cov_tree::List;
use std::alloc::Global;
use std::marker::Model;

/// The steps of a dump in order of time, packed into fewer bytes than the dump's text has.
#[derive(Drop)]
pub struct Steps {
    items: Packed,
}

impl Model for Steps {
    ghost use Rattle.std.specs.Prelude.{List};
    ghost use Rattle.vcd_dump.specs.declared.dump.DumpStep.{DumpStep};
    ghost use Rattle.vcd_dump.specs.contracts.dump.DumpStep as step_type;
    ghost use Rattle.vcd_dump.specs.Body.{steps_of};
    ghost use Rattle.std.specs.Coded.{codes};

    ghost Value = { List DumpStep };

    ghost coded = { Prim.hlevel (codes, step_type.the_row.coded) };

    ghost view = { λ steps. steps_of steps.items };
}

/// The next time in these bytes of steps, in the dump's own unit, and the bytes behind it, which begin
/// with the changes at that time; None where no time is left. Changes that stand before it are passed over.
pub fn next_time(bytes: &[u8]) -> Option<(u64, &[u8])>
    ensures step { MatchOption result (steps_begun (items_in bytes.now) ≡ [])
        (λ x. steps_begun (items_in bytes.now)
        ≡ record { time = x.0; changes = changes_of (items_in x.1.now) }
        ∷ steps_begun (items_in x.1.now)) }
    ensures shorter { IfSome result (λ x. length x.1.now < length bytes.now) }
{
    let mut rest = bytes;
    while let Some((item, later)) = next_item(rest) {
        if let Item::Begins { time } = item {
            return Some((time, later));
        }
        rest = later;
    }
    None
}

/// The time of the first step of all bytes of steps, in the dump's own unit, which is 0 where changes stand before the first
/// time, and the bytes from its changes on; None where there is no step.
#[tactic(auto, unfolding(crate::specs::Body::steps_of))]
pub fn first_time(bytes: &[u8]) -> Option<(u64, &[u8])>
    ensures { MatchOption result (steps_of (items_in bytes.now) ≡ [])
        (λ x. steps_of (items_in bytes.now)
        ≡ record { time = x.0; changes = changes_of (items_in x.1.now) }
        ∷ steps_begun (items_in x.1.now)) }
{
    let Some((item, later)) = next_item(bytes) else {
        return None;
    };
    match item {
        Item::Begins { time } => Some((time, later)),
        Item::Changes { .. } => Some((0, bytes)),
    }
}

/// The next change of the step with whose changes these bytes begin, and the bytes behind it; None where the step ends.
pub fn next_change(bytes: &[u8]) -> Option<(Change, &[u8])>
    ensures change { MatchOption result (changes_of (items_in bytes.now) ≡ [])
        (λ x. changes_of (items_in bytes.now) ≡ x.0 ∷ changes_of (items_in x.1.now)) }
    ensures shorter { IfSome result (λ x. length x.1.now < length bytes.now) }
{
    let (item, later) = next_item(bytes)?;
    match item {
        Item::Begins { .. } => None,
        Item::Changes { change } => Some((change, later)),
    }
}

/// The changes before the next time.
fn changes_of(alloc: Global, bytes: &[u8]) -> Result<List<Change>, Memory>
    ensures { IfOk result (λ changes. changes ≡ changes_of (items_in bytes.now)) }
{
    let mut changes = List::new(alloc);
    let mut rest = bytes;
    while let Some((change, later)) = next_change(rest) {
        changes.push(change)?;
        rest = later;
    }
    Ok(changes)
}

fn step_of(alloc: Global, time: u64, bytes: &[u8]) -> Result<DumpStep, Memory>
    ensures { IfOk result (λ step. step
        ≡ record { time = time; changes = changes_of (items_in bytes.now) }) }
{
    let changes = changes_of(alloc, bytes)?;
    Ok(DumpStep { time, changes })
}

/// The steps behind a step with these changes.
fn push_steps(alloc: Global, bytes: &[u8], steps: &mut List<DumpStep>) -> Result<(), Memory>
    ensures { OnOk result (steps.new ≡ steps.old ++ steps_begun (items_in bytes.now)) }
{
    let mut rest = bytes;
    while let Some((time, later)) = next_time(rest) {
        let step = step_of(alloc, time, later)?;
        steps.push(step)?;
        rest = later;
    }
    Ok(())
}

/// All steps.
fn list_of(alloc: Global, bytes: &[u8]) -> Result<List<DumpStep>, Memory>
    ensures { IfOk result (λ steps. steps ≡ steps_of (items_in bytes.now)) }
{
    let mut steps = List::new(alloc);
    let Some((time, changes)) = first_time(bytes) else {
        return Ok(steps);
    };
    let step = step_of(alloc, time, changes)?;
    steps.push(step)?;
    push_steps(alloc, changes, &mut steps)?;
    Ok(steps)
}

impl Steps {
    ghost use Rattle.std.specs.Prelude.{◌≡◌, IfOk};
    ghost use Rattle.vcd_dump.specs.Body.{steps_of};
    ghost use Rattle.vcd_dump.specs.Packing.{items_in};

    /// The steps of times and changes.
    pub(crate) fn of(items: Packed) -> Steps
        ensures { result ≡ steps_of items }
    {
        Steps { items }
    }

    /// The bytes that hold the steps, in which `first_time`, `next_change` and `next_time` walk along them.
    pub fn as_bytes(&self) -> &[u8]
        ensures { steps_of (items_in result.now) ≡ self.now }
    {
        self.items.as_bytes()
    }

    /// A list of the steps, which takes 24 bytes a change.
    pub fn to_list(&self, alloc: Global) -> Result<List<DumpStep>, Memory>
        ensures { IfOk result (λ steps. steps ≡ self.now) }
    {
        list_of(alloc, self.as_bytes())
    }
}
