//! The values at each sample of an instance, each looked up from the front of the record.
ghost use Rattle.std.specs.Prelude.{◌≡◌, ◌∷◌, ◌++◌, IfOk, OnOk, Some, pos, map, reverse, slice_get};
ghost use Rattle.std.specs.List.{range_with_len};
ghost use Rattle.bin_spec.specs.Types.{number_of};
ghost use Rattle.record_codec.specs.Samples.{latest as latest_of, signal_value as value_of_signal, arg_value as value_of_arg, args_of, signal_at, arg_at, env_of, envs_after, samples_of};
ghost use Rattle.cov_counting.specs.Steps.{envs_at, values_to};

use bit_width::Width;
use cov_base::{Int, read_bits};
use cov_ground::Memory;
use cov_ground::limits::{MOST_ARGUMENTS, MOST_BITS, MOST_SIGNALS};
use cov_tree::List;
use record_codec::{ArgRow, Event, InstRow, Record, SignalRow};
use std::alloc::Global;

/// Bits read without a sign.
fn plain(bits: u64) -> Option<Int>
    ensures { result ≡ Some (pos bits) }
{
    Int::new(i128::from(bits))
}

/// The number that bits stand for.
fn number(width: u8, signed: bool, bits: u64) -> Option<Int>
    ensures { result ≡ Some (number_of width signed bits) }
{
    if !signed {
        return plain(bits);
    }
    if width > MOST_BITS {
        return plain(bits);
    }
    if width == 0 {
        return plain(bits.saturating_sub(1));
    }
    Some(read_bits(Width::of(width), true, bits))
}

/// What the last Set of the signal gave.
fn latest(signal: usize, events: &[Event]) -> Option<u64>
    ensures { result ≡ latest_of signal (reverse events.now) }
{
    let mut known = None;
    for event in events {
        known = after(signal, event, known);
    }
    known
}

/// What the signal has after an event, where it had `known` before.
fn after(signal: usize, event: &Event, known: Option<u64>) -> Option<u64>
    ensures { (before : List Event) → known ≡ latest_of signal before → result ≡ latest_of signal (event.now ∷ before) }
{
    match event {
        Event::Set {
            signal: other,
            value,
        } => {
            if *other as usize == signal {
                *value
            } else {
                known
            }
        }
        Event::Sample { .. } => known,
    }
}

/// The value of the signal at this index that bits stand for.
pub fn signal_value(rows: &[SignalRow], index: usize, bits: Option<u64>) -> Option<Int>
    ensures { result ≡ value_of_signal (slice_get rows.now index) bits }
{
    match (rows.get(index), bits) {
        (Some(row), Some(bits)) => number(row.width, row.signed, bits),
        _ => None,
    }
}

/// The value of the argument at this index.
pub fn arg_value(rows: &[ArgRow], args: &[Option<u64>], index: usize) -> Option<Int>
    ensures { result ≡ arg_at rows.now args.now index }
{
    let Some(row) = rows.get(index) else {
        return None;
    };
    match args.get(index) {
        Some(Some(bits)) => number(row.width, row.signed, *bits),
        _ => None,
    }
}

/// The arguments of the instance at this index.
fn arguments(instances: &[InstRow], index: usize) -> &[ArgRow]
    ensures { result.now ≡ args_of (slice_get instances.now index) }
{
    match instances.get(index) {
        Some(row) => row.args.as_slice(),
        None => &[],
    }
}

/// The values of so many signals after events.
fn signals_below(
    alloc: Global,
    rows: &[SignalRow],
    before: &[Event],
    count: usize,
) -> Result<List<Option<Int>>, Memory>
    ensures { IfOk result (λ values. values ≡ map (signal_at rows.now (reverse before.now)) (range_with_len 0 count)) }
{
    let mut values = List::new(alloc);
    for index in 0..count {
        values.push(signal_value(rows, index, latest(index, before)))?;
    }
    Ok(values)
}

/// The values of so many arguments of a sample.
fn args_below(
    alloc: Global,
    rows: &[ArgRow],
    args: &[Option<u64>],
    count: usize,
) -> Result<List<Option<Int>>, Memory>
    ensures { IfOk result (λ values. values ≡ map (arg_at rows.now args.now) (range_with_len 0 count)) }
{
    let mut values = List::new(alloc);
    for index in 0..count {
        values.push(arg_value(rows, args, index))?;
    }
    Ok(values)
}

/// The values of so many signals and arguments at a sample.
fn values(
    alloc: Global,
    signals: &[SignalRow],
    rows: &[ArgRow],
    before: &[Event],
    args: &[Option<u64>],
    most: (usize, usize),
) -> Result<List<Option<Int>>, Memory>
    ensures { IfOk result (λ values. values ≡ values_to most.0 most.1 signals.now rows.now (reverse before.now) args.now) }
{
    let mut values = signals_below(alloc, signals, before, most.0)?;
    values.append(args_below(alloc, rows, args, most.1)?)?;
    Ok(values)
}

/// The values at a sample.
fn env(
    alloc: Global,
    signals: &[SignalRow],
    rows: &[ArgRow],
    before: &[Event],
    args: &[Option<u64>],
) -> Result<List<Option<Int>>, Memory>
    ensures { IfOk result (λ env. env ≡ env_of signals.now rows.now (reverse before.now) args.now) }
{
    values(
        alloc,
        signals,
        rows,
        before,
        args,
        (MOST_SIGNALS, MOST_ARGUMENTS),
    )
}

/// Puts the values at an event behind those of earlier samples, if the event samples the instance.
fn add_sample(
    alloc: Global,
    signals: &[SignalRow],
    rows: &[ArgRow],
    instance: usize,
    before: &[Event],
    event: &Event,
    samples: &mut List<List<Option<Int>>>,
) -> Result<(), Memory>
    ensures { OnOk result (samples.new ≡ samples.old ++ envs_at signals.now rows.now instance (reverse before.now) event.now) }
{
    if let Event::Sample {
        instance: sampled,
        args,
    } = event
    {
        if *sampled as usize == instance {
            samples.push(env(alloc, signals, rows, before, args.as_slice())?)?;
        }
    }
    Ok(())
}

/// The values at each sample of the instance: at an index below 4,096 that of the signal of this number, and at
/// 4,096 + k that of the k-th argument.
pub fn samples(
    alloc: Global,
    record: &Record,
    instance: usize,
) -> Result<List<List<Option<Int>>>, Memory>
    ensures { IfOk result (λ samples. samples ≡ samples_of record.now instance) }
{
    let signals = record.signals.as_slice();
    let rows = arguments(record.instances.as_slice(), instance);
    let events = record.events.as_slice();
    let mut samples = List::new(alloc);
    for (index, event) in events.iter().enumerate() {
        add_sample(
            alloc,
            signals,
            rows,
            instance,
            &events[..index],
            event,
            &mut samples,
        )?;
    }
    Ok(samples)
}
