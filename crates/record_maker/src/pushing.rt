//! The events of a record, pushed round by round.
ghost use Rattle.std.specs.Prelude.{◌≡◌, ◌≤◌, ◌∷◌, [], length, Some, IfOk, OnOk};
ghost use Rattle.cov_ground.specs.Limits.{most_signals, most_instances};
ghost use Rattle.record_codec.specs.declared.record.Event.TheVariants.{Set, Sample};
ghost use Rattle.record_maker.specs.Generator.{draw as drawn, highest as highest_of, after, sets_from, values_of, after_samples, samples_from, round, after_round, rounds_from};
ghost use Rattle.record_maker.specs.Pushing.{Pushed};

use crate::drawing::{draw, highest, push_values};
use cov_ground::Memory;
use cov_tree::List;
use design_data::{Design, InstInfo, Signal};
use record_codec::{Event, RecordBuilder};
use std::alloc::Global;

/// One event more. One that is none of the record's counts as want of memory: the generator makes none.
fn push(builder: &mut RecordBuilder, event: Event) -> Result<(), Memory>
    ensures { OnOk result (Pushed builder.old builder.new (event ∷ [])) }
{
    match builder.push(event) {
        Ok(()) => Ok(()),
        Err(_) => Err(Memory),
    }
}

/// A Set of a signal; the number that was drawn for it.
fn push_set(builder: &mut RecordBuilder, signal: u16, width: u8, x: u64) -> Result<u64, Memory>
    ensures pushed { OnOk result (Pushed builder.old builder.new (Set signal (Some (highest_of width (drawn x))) ∷ [])) }
    ensures last { IfOk result (λ y. y ≡ drawn x) }
{
    let last = draw(x);
    let value = Some(highest(width, last));
    push(builder, Event::Set { signal, value })?;
    Ok(last)
}

/// A Set of each signal; the number that was drawn last.
fn push_sets(builder: &mut RecordBuilder, signals: &[Signal], x: u64) -> Result<u64, Memory>
    requires { length signals.now ≤ most_signals }
    ensures pushed { OnOk result (Pushed builder.old builder.new (sets_from 0 signals.now x)) }
    ensures last { IfOk result (λ y. y ≡ after signals.now x) }
{
    let mut last = x;
    let mut number: u16 = 0;
    let mut rest = signals;
    while let Some((signal, later)) = rest.split_first() {
        last = push_set(builder, number, signal.width, last)?;
        number += 1;
        rest = later;
    }
    Ok(last)
}

/// A Sample of an instance; the number that was drawn last.
fn push_sample(
    alloc: Global,
    builder: &mut RecordBuilder,
    number: u16,
    instance: &InstInfo,
    x: u64,
) -> Result<u64, Memory>
    ensures pushed { OnOk result (Pushed builder.old builder.new (Sample number (values_of instance.now.args x) ∷ [])) }
    ensures last { IfOk result (λ y. y ≡ after instance.now.args x) }
{
    let mut args = List::new(alloc);
    let last = push_values(&mut args, instance.args.as_slice(), x)?;
    let event = Event::Sample {
        instance: number,
        args,
    };
    push(builder, event)?;
    Ok(last)
}

/// A Sample of each instance; the number that was drawn last.
fn push_samples(
    alloc: Global,
    builder: &mut RecordBuilder,
    instances: &[InstInfo],
    x: u64,
) -> Result<u64, Memory>
    requires { length instances.now ≤ most_instances }
    ensures pushed { OnOk result (Pushed builder.old builder.new (samples_from 0 instances.now x)) }
    ensures last { IfOk result (λ y. y ≡ after_samples instances.now x) }
{
    let mut last = x;
    let mut number: u16 = 0;
    let mut rest = instances;
    while let Some((instance, later)) = rest.split_first() {
        last = push_sample(alloc, builder, number, instance, last)?;
        number += 1;
        rest = later;
    }
    Ok(last)
}

/// The events of a round; the number that was drawn last.
#[tactic(auto, unfolding(crate::specs::Generator::round, crate::specs::Generator::after_round))]
fn push_round(
    alloc: Global,
    builder: &mut RecordBuilder,
    design: &Design,
    x: u64,
) -> Result<u64, Memory>
    ensures pushed { OnOk result (Pushed builder.old builder.new (round design.now x)) }
    ensures last { IfOk result (λ y. y ≡ after_round design.now x) }
{
    let middle = push_sets(builder, design.signals(), x)?;
    let last = push_samples(alloc, builder, design.instances(), middle)?;
    Ok(last)
}

/// The events of so many rounds.
pub(crate) fn push_rounds(
    alloc: Global,
    builder: &mut RecordBuilder,
    design: &Design,
    rounds: u32,
    x: u64,
) -> Result<(), Memory>
    ensures { OnOk result (Pushed builder.old builder.new (rounds_from design.now rounds x)) }
{
    let mut last = x;
    let mut left = rounds;
    while left > 0 {
        last = push_round(alloc, builder, design, last)?;
        left -= 1;
    }
    Ok(())
}
