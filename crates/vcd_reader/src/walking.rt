//! The walk along the steps of a dump.
ghost use Rattle.std.specs.Prelude.{◌≡◌, ◌≤◌, ◌<◌, ◌∷◌, [], None, map, length, replicate, slice_index_or, IfOk, OnOk};
ghost use Rattle.std.specs.List.{AllByRecursion};
ghost use Rattle.cov_ground.specs.Limits.{most_signals, most_instances};
ghost use Rattle.vcd_dump.specs.Packing.{items_in};
ghost use Rattle.vcd_dump.specs.Body.{changes_of, steps_begun};
ghost use Rattle.vcd_reader.specs.Held.{unknown, shown, applied};
ghost use Rattle.vcd_reader.specs.Moments.{moment_of, table_events, events_of};
ghost use Rattle.vcd_reader.specs.Pushing.{Pushed};

use crate::held::{Held, UNKNOWN, apply};
use crate::moments::{Step, moment};
use crate::watching::Watch;
use cov_ground::Memory;
use cov_tree::List;
use record_codec::{Event, RecordBuilder, SignalRow};
use std::alloc::Global;
use vcd_dump::{Steps, first_time, next_time};

/// What is watched: the signals' rows and codes, and the edges of each instance.
#[derive(Drop)]
pub(crate) struct Plan {
    pub(crate) rows: List<SignalRow>,
    pub(crate) codes: List<u32>,
    pub(crate) events: List<List<Watch>>,
}

/// What codes hold before and after a step, by code, and the values of the signals' last Sets.
#[derive(Drop)]
pub(crate) struct Walk {
    pub(crate) before: Vec<Held>,
    pub(crate) after: Vec<Held>,
    pub(crate) last: Vec<Option<u64>>,
}

/// All changes of a step, with which the bytes begin, in a table by code.
fn apply_all(changes: &[u8], table: &mut Vec<Held>)
    ensures { table.new.items ≡ applied (changes_of (items_in changes.now)) table.old.items }
{
    apply(changes, table.as_mut_slice());
}

/// The events of a step, with whose changes the bytes begin.
fn step_events(
    alloc: Global,
    plan: &Plan,
    changes: &[u8],
    walk: &mut Walk,
) -> Result<Vec<Event>, Memory>
    requires events { length plan.now.events ≤ most_instances }
    requires signals { length plan.now.codes ≤ most_signals }
    ensures events { IfOk result (λ made. made.items ≡ (moment_of plan.now.rows plan.now.events walk.old.last.items (map (λ code. (slice_index_or walk.old.before.items code unknown).value) plan.now.codes) (shown plan.now.codes walk.old.before.items) (shown plan.now.codes (applied (changes_of (items_in changes.now)) walk.old.after.items))).events) }
    ensures last { OnOk result (walk.new.last.items ≡ (moment_of plan.now.rows plan.now.events walk.old.last.items (map (λ code. (slice_index_or walk.old.before.items code unknown).value) plan.now.codes) (shown plan.now.codes walk.old.before.items) (shown plan.now.codes (applied (changes_of (items_in changes.now)) walk.old.after.items))).last) }
    ensures before { OnOk result (walk.new.before.items ≡ applied (changes_of (items_in changes.now)) walk.old.before.items) }
    ensures after { OnOk result (walk.new.after.items ≡ applied (changes_of (items_in changes.now)) walk.old.after.items) }
{
    apply_all(changes, &mut walk.after);
    let step = Step {
        codes: plan.codes.as_slice(),
        before: &walk.before,
        after: &walk.after,
    };
    let rows = plan.rows.as_slice();
    let made = moment(alloc, rows, plan.events.as_slice(), &step, &mut walk.last)?;
    apply_all(changes, &mut walk.before);
    Ok(made)
}

/// Pushes events in order.
fn push_all(builder: &mut RecordBuilder, events: Vec<Event>) -> Result<(), Memory>
    ensures { OnOk result (Pushed builder.old builder.new events.items) }
{
    for event in events {
        push(builder, event)?;
    }
    Ok(())
}

/// Pushes one event.
fn push(builder: &mut RecordBuilder, event: Event) -> Result<(), Memory>
    ensures { OnOk result (Pushed builder.old builder.new (event ∷ [])) }
{
    match builder.push(event) {
        Ok(()) => Ok(()),
        Err(_) => Err(Memory),
    }
}

/// Pushes the events of the steps that begin in these bytes, in order.
pub(crate) fn walk_steps(
    alloc: Global,
    plan: &Plan,
    steps: &[u8],
    walk: &mut Walk,
    builder: &mut RecordBuilder,
) -> Result<(), Memory>
    requires events { length plan.now.events ≤ most_instances }
    requires signals { length plan.now.codes ≤ most_signals }
    requires tables { walk.old.before.items ≡ walk.old.after.items }
    ensures { OnOk result (Pushed builder.old builder.new
        (table_events plan.now.rows plan.now.codes plan.now.events walk.old.last.items
        walk.old.before.items (steps_begun (items_in steps.now)))) }
{
    let mut rest = steps;
    while let Some((_, later)) = next_time(rest) {
        let made = step_events(alloc, plan, later, walk)?;
        push_all(builder, made)?;
        rest = later;
    }
    Ok(())
}

/// More than each of the codes.
fn table_len(codes: &[u32]) -> usize
    ensures { AllByRecursion (λ code. code < result) codes.now }
{
    let mut len: usize = 0;
    let mut rest = codes;
    while let Some((code, later)) = rest.split_first() {
        len = above(len, *code);
        rest = later;
    }
    len
}

/// A length that is above a code and at least so much.
fn above(len: usize, code: u32) -> usize
    ensures above { code < result }
    ensures least { len ≤ result }
{
    let next = code as usize + 1;
    if len < next { next } else { len }
}

/// A table in which nothing is known.
fn unknown_table(alloc: Global, len: usize) -> Result<Vec<Held>, Memory>
    ensures { IfOk result (λ table. table.items ≡ replicate len unknown) }
{
    let table = vec![in alloc; UNKNOWN; len]?;
    Ok(table)
}

/// No signal has been set.
fn none_set(alloc: Global, codes: &[u32]) -> Result<Vec<Option<u64>>, Memory>
    ensures { IfOk result (λ last. last.items ≡ map (λ code. None) codes.now) }
{
    let mut last = Vec::with_capacity(alloc, codes.len())?;
    let mut rest = codes;
    while let Some((_, later)) = rest.split_first() {
        last.push(None)?;
        rest = later;
    }
    Ok(last)
}

/// The walk behind the first step.
fn walk_behind(alloc: Global, codes: &[u32], len: usize, changes: &[u8]) -> Result<Walk, Memory>
    ensures before { IfOk result (λ walk. walk.before.items ≡ applied (changes_of (items_in changes.now)) (replicate len unknown)) }
    ensures after { IfOk result (λ walk. walk.after.items ≡ applied (changes_of (items_in changes.now)) (replicate len unknown)) }
    ensures last { IfOk result (λ walk. walk.last.items ≡ map (λ code. None) codes.now) }
{
    let mut before = unknown_table(alloc, len)?;
    let mut after = unknown_table(alloc, len)?;
    apply_all(changes, &mut before);
    apply_all(changes, &mut after);
    let last = none_set(alloc, codes)?;
    Ok(Walk {
        before,
        after,
        last,
    })
}

/// Pushes the events of a dump's steps in order.
pub(crate) fn push_events(
    alloc: Global,
    plan: &Plan,
    steps: &Steps,
    builder: &mut RecordBuilder,
) -> Result<(), Memory>
    requires events { length plan.now.events ≤ most_instances }
    requires signals { length plan.now.codes ≤ most_signals }
    ensures { OnOk result (Pushed builder.old builder.new
        (events_of plan.now.rows plan.now.codes plan.now.events steps.now)) }
{
    let Some((_, changes)) = first_time(steps.as_bytes()) else {
        return Ok(());
    };
    let codes = plan.codes.as_slice();
    let mut walk = walk_behind(alloc, codes, table_len(codes), changes)?;
    walk_steps(alloc, plan, changes, &mut walk, builder)?;
    Ok(())
}
