//! The moments at which instances are sampled, and the events of a record that follow.
ghost use Rattle.std.specs.Prelude.{◌≡◌, ◌≤◌, ◌++◌, ◌∷◌, [], map, length, slice_index_or, if◌then◌else◌, IfOk, OnOk};
ghost use Rattle.std.specs.List.{list_any};
ghost use Rattle.cov_ground.specs.Limits.{most_signals, most_instances};
ghost use Rattle.record_codec.specs.declared.record.Event.TheVariants.{Set, Sample};
ghost use Rattle.vcd_reader.specs.Held.{unknown, shown, applied};
ghost use Rattle.vcd_reader.specs.Moments.{is_zero, is_one, is_x, is_z, rises, falls, same_bit, same_value, is_edge, numbers_from, sets_from, matches, samples_from, has_edge, moment_with, moment_of};

use crate::held::{Held, UNKNOWN};
use crate::watching::Watch;
use cov_base::Int;
use cov_counting::{holds, signal_value};
use cov_ground::Memory;
use cov_tree::{EdgeKind, List};
use record_codec::{Event, SignalRow};
use std::alloc::Global;
use vcd_dump::Bit4;

fn is_zero(bit: Bit4) -> bool
    ensures { result ≡ is_zero bit }
{
    match bit {
        Bit4::Zero => true,
        _ => false,
    }
}

fn is_one(bit: Bit4) -> bool
    ensures { result ≡ is_one bit }
{
    match bit {
        Bit4::One => true,
        _ => false,
    }
}

/// Whether the change of a bit is a `posedge`.
fn rises(before: Bit4, after: Bit4) -> bool
    ensures { result ≡ rises before after }
{
    match before {
        Bit4::Zero => !is_zero(after),
        Bit4::One => false,
        Bit4::X | Bit4::Z => is_one(after),
    }
}

/// Whether the change of a bit is a `negedge`.
fn falls(before: Bit4, after: Bit4) -> bool
    ensures { result ≡ falls before after }
{
    match before {
        Bit4::Zero => false,
        Bit4::One => !is_one(after),
        Bit4::X | Bit4::Z => is_zero(after),
    }
}

fn same_bit(before: Bit4, after: Bit4) -> bool
    ensures { result ≡ same_bit before after }
{
    match before {
        Bit4::Zero => is_zero(after),
        Bit4::One => is_one(after),
        Bit4::X => match after {
            Bit4::X => true,
            _ => false,
        },
        Bit4::Z => match after {
            Bit4::Z => true,
            _ => false,
        },
    }
}

fn same_value(before: Option<u64>, after: Option<u64>) -> bool
    ensures { result ≡ same_value before after }
{
    match before {
        None => match after {
            None => true,
            Some(_) => false,
        },
        Some(before) => match after {
            None => false,
            Some(after) => before == after,
        },
    }
}

/// Whether what is held before and after a step makes an edge.
fn is_edge(kind: EdgeKind, before: Held, after: Held) -> bool
    ensures { result ≡ is_edge kind before after }
{
    match kind {
        EdgeKind::Any => {
            !(same_value(before.value, after.value) && same_bit(before.low, after.low))
        }
        EdgeKind::Pos => rises(before.low, after.low),
        EdgeKind::Negative => falls(before.low, after.low),
        EdgeKind::Both => rises(before.low, after.low) || falls(before.low, after.low),
    }
}

/// What a code holds by a table.
fn at_code(table: &[Held], code: u32) -> Held
    ensures { result ≡ slice_index_or table.now code unknown }
{
    match table.get(code as usize) {
        Some(held) => *held,
        None => UNKNOWN,
    }
}

/// What the signal of a number holds by a table.
fn shown(codes: &[u32], table: &[Held], signal: u16) -> Held
    ensures { result ≡ shown codes.now table.now signal }
{
    match codes.get(signal as usize) {
        Some(code) => at_code(table, *code),
        None => UNKNOWN,
    }
}

/// What the signals hold before and after a step.
#[derive(Clone, Copy)]
pub(crate) struct Step<'t> {
    pub(crate) codes: &'t [u32],
    pub(crate) before: &'t [Held],
    pub(crate) after: &'t [Held],
}

/// Whether an edge matches a step whose conditions see these values.
fn matches(env: &[Option<Int>], step: &Step<'_>, watch: &Watch) -> bool
    ensures { result ≡ matches env.now (shown step.now.codes.now step.now.before.now) (shown step.now.codes.now step.now.after.now) watch.now }
{
    let before = shown(step.codes, step.before, watch.signal);
    let after = shown(step.codes, step.after, watch.signal);
    is_edge(watch.kind, before, after) && holds(&watch.guard, env)
}

/// Whether some edge of an event matches.
fn is_sampled(env: &[Option<Int>], step: &Step<'_>, event: &[Watch]) -> bool
    ensures { result ≡ list_any (matches env.now (shown step.now.codes.now step.now.before.now) (shown step.now.codes.now step.now.after.now)) event.now }
{
    event.iter().any(|watch| matches(env, step, watch))
}

/// A Sample of each instance that has an edge that matches, in order.
fn samples(
    alloc: Global,
    env: &[Option<Int>],
    step: &Step<'_>,
    events: &[List<Watch>],
) -> Result<Vec<Event>, Memory>
    requires { length events.now ≤ most_instances }
    ensures { IfOk result (λ samples. samples.items ≡ samples_from env.now (shown step.now.codes.now step.now.before.now) (shown step.now.codes.now step.now.after.now) 0 events.now) }
{
    let mut samples = Vec::new(alloc);
    let mut instance: u16 = 0;
    let mut rest = events;
    while let Some((event, later)) = rest.split_first() {
        add_sample(
            alloc,
            is_sampled(env, step, event.as_slice()),
            instance,
            &mut samples,
        )?;
        instance += 1;
        rest = later;
    }
    Ok(samples)
}

/// A Sample of an instance, where it is sampled.
fn add_sample(
    alloc: Global,
    is_sampled: bool,
    instance: u16,
    samples: &mut Vec<Event>,
) -> Result<(), Memory>
    ensures { OnOk result (samples.new.items ≡ samples.old.items ++ (if is_sampled then Sample instance [] ∷ [] else [])) }
{
    if is_sampled {
        samples.push(Event::Sample {
            instance,
            args: List::new(alloc),
        })?;
    }
    Ok(())
}

/// A Set of a signal, where its value isn't that of the last Set.
fn add_set(
    signal: u16,
    last: Option<u64>,
    value: Option<u64>,
    sets: &mut Vec<Event>,
) -> Result<(), Memory>
    ensures { OnOk result (sets.new.items ≡ sets.old.items ++ (if same_value last value then [] else Set signal value ∷ [])) }
{
    if !same_value(last, value) {
        sets.push(Event::Set { signal, value })?;
    }
    Ok(())
}

/// A Set of each signal whose value isn't that of its last Set, in order.
fn sets(alloc: Global, last: &[Option<u64>], now: &[Option<u64>]) -> Result<Vec<Event>, Memory>
    requires { length now.now ≤ most_signals }
    ensures { IfOk result (λ sets. sets.items ≡ sets_from 0 last.now now.now) }
{
    let mut sets = Vec::new(alloc);
    let mut signal: u16 = 0;
    let mut older = last;
    let mut rest = now;
    while let Some((value, later)) = rest.split_first() {
        let Some((old, others)) = older.split_first() else {
            return Ok(sets);
        };
        add_set(signal, *old, *value, &mut sets)?;
        signal += 1;
        older = others;
        rest = later;
    }
    Ok(sets)
}

/// The values of the signals by a table.
fn values(alloc: Global, codes: &[u32], table: &[Held]) -> Result<Vec<Option<u64>>, Memory>
    ensures { IfOk result (λ values. values.items ≡ map (λ code. (slice_index_or table.now code unknown).value) codes.now) }
{
    let mut values = Vec::with_capacity(alloc, codes.len())?;
    let mut rest = codes;
    while let Some((code, later)) = rest.split_first() {
        values.push(at_code(table, *code).value)?;
        rest = later;
    }
    Ok(values)
}

/// The values as numbers of the signals' types.
fn numbers(
    alloc: Global,
    rows: &[SignalRow],
    values: &[Option<u64>],
) -> Result<Vec<Option<Int>>, Memory>
    ensures { IfOk result (λ numbers. numbers.items ≡ numbers_from rows.now 0 values.now) }
{
    let mut numbers = Vec::with_capacity(alloc, values.len())?;
    let mut signal: usize = 0;
    let mut rest = values;
    while let Some((value, later)) = rest.split_first() {
        numbers.push(signal_value(rows, signal, *value))?;
        signal += 1;
        rest = later;
    }
    Ok(numbers)
}

/// Whether a step makes an edge, whatever its condition.
fn is_made(step: &Step<'_>, watch: &Watch) -> bool
    ensures { result ≡ has_edge (shown step.now.codes.now step.now.before.now) (shown step.now.codes.now step.now.after.now) watch.now }
{
    let before = shown(step.codes, step.before, watch.signal);
    let after = shown(step.codes, step.after, watch.signal);
    is_edge(watch.kind, before, after)
}

/// Whether some edge of an event is made.
fn has_edge_in(step: &Step<'_>, event: &[Watch]) -> bool
    ensures { result ≡ list_any (has_edge (shown step.now.codes.now step.now.before.now) (shown step.now.codes.now step.now.after.now)) event.now }
{
    event.iter().any(|watch| is_made(step, watch))
}

/// Whether some edge of all events is made.
fn has_edge(step: &Step<'_>, events: &[List<Watch>]) -> bool
    ensures { result ≡ list_any (list_any (has_edge (shown step.now.codes.now step.now.before.now) (shown step.now.codes.now step.now.after.now))) events.now }
{
    events
        .iter()
        .any(|event| has_edge_in(step, event.as_slice()))
}

/// The events of a step, with the values of the last Sets.
#[tactic(auto, using(crate::proofs::Tables::none_sampled, crate::proofs::Tables::some_sampled), unfolding(crate::specs::Moments::moment_of))]
fn moment_seen(
    alloc: Global,
    rows: &[SignalRow],
    events: &[List<Watch>],
    step: &Step<'_>,
    last: &mut Vec<Option<u64>>,
) -> Result<Vec<Event>, Memory>
    requires events { length events.now ≤ most_instances }
    requires signals { length step.now.codes.now ≤ most_signals }
    ensures events { IfOk result (λ made. made.items ≡ (moment_of rows.now events.now last.old.items (map (λ code. (slice_index_or step.now.before.now code unknown).value) step.now.codes.now) (shown step.now.codes.now step.now.before.now) (shown step.now.codes.now step.now.after.now)).events) }
    ensures last { OnOk result (last.new.items ≡ (moment_of rows.now events.now last.old.items (map (λ code. (slice_index_or step.now.before.now code unknown).value) step.now.codes.now) (shown step.now.codes.now step.now.before.now) (shown step.now.codes.now step.now.after.now)).last) }
{
    let now = values(alloc, step.codes, step.before)?;
    let env = numbers(alloc, rows, &now)?;
    let mut sampled = samples(alloc, &env, step, events)?;
    if sampled.is_empty() {
        return Ok(sampled);
    }
    let mut made = sets(alloc, last, &now)?;
    made.append(&mut sampled)?;
    *last = now;
    Ok(made)
}

/// The same; where no edge is made, the signals aren't looked at.
#[tactic(auto, using(crate::proofs::Tables::no_edge), unfolding(crate::specs::Moments::moment_of))]
pub(crate) fn moment(
    alloc: Global,
    rows: &[SignalRow],
    events: &[List<Watch>],
    step: &Step<'_>,
    last: &mut Vec<Option<u64>>,
) -> Result<Vec<Event>, Memory>
    requires events { length events.now ≤ most_instances }
    requires signals { length step.now.codes.now ≤ most_signals }
    ensures events { IfOk result (λ made. made.items
        ≡ (moment_of rows.now events.now last.old.items
        (map (λ code. (slice_index_or step.now.before.now code unknown).value)
        step.now.codes.now)
        (shown step.now.codes.now step.now.before.now)
        (shown step.now.codes.now step.now.after.now)).events) }
    ensures last { OnOk result (last.new.items
        ≡ (moment_of rows.now events.now last.old.items
        (map (λ code. (slice_index_or step.now.before.now code unknown).value)
        step.now.codes.now)
        (shown step.now.codes.now step.now.before.now)
        (shown step.now.codes.now step.now.after.now)).last) }
{
    if !has_edge(step, events) {
        return Ok(Vec::new(alloc));
    }
    moment_seen(alloc, rows, events, step, last)
}
