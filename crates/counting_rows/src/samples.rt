//! Records from words: a number or `x` is a value, and `.` samples the instance after the signals are set to the values
//! before it, the arguments of the sample function having those that are left.
use cov_tree::{List, Name};
use design_data::{Design, InstInfo, Signal};
use record_codec::{ArgRow, Event, InstRow, Record, RecordBuilder, SignalRow, Start};
use std::alloc::Global;

/// The name of these bytes.
fn name_of(alloc: Global, bytes: &[u8]) -> Name {
    Name::of(alloc, bytes).unwrap_or(Name::empty())
}

fn signal_row(alloc: Global, signal: &Signal) -> SignalRow {
    SignalRow {
        name: name_of(alloc, b"v"),
        width: signal.width,
        signed: signal.signed,
    }
}

fn signal_rows(alloc: Global, signals: &[Signal]) -> List<SignalRow> {
    let mut rows = List::new(alloc);
    for signal in signals {
        let _ = rows.push(signal_row(alloc, signal));
    }
    rows
}

fn arg_row(arg: &Signal) -> ArgRow {
    ArgRow {
        width: arg.width,
        signed: arg.signed,
    }
}

fn arg_rows(alloc: Global, args: &[Signal]) -> List<ArgRow> {
    let mut rows = List::new(alloc);
    for arg in args {
        let _ = rows.push(arg_row(arg));
    }
    rows
}

fn instance_row(alloc: Global, args: &[Signal]) -> InstRow {
    InstRow {
        name: name_of(alloc, b"i"),
        group: name_of(alloc, b"g"),
        args: arg_rows(alloc, args),
    }
}

fn instance_rows(alloc: Global, args: &[Signal]) -> List<InstRow> {
    let mut rows = List::new(alloc);
    let _ = rows.push(instance_row(alloc, args));
    rows
}

/// What the record says before its events. It has version 2 where the sample function has arguments.
fn start_of(alloc: Global, signals: &[Signal], args: &[Signal]) -> Start {
    Start {
        version: if args.is_empty() { 1 } else { 2 },
        id: name_of(alloc, b"t1"),
        status: 0,
        seed: 0,
        time: 0,
        user: name_of(alloc, b""),
        signals: signal_rows(alloc, signals),
        instances: instance_rows(alloc, args),
    }
}

fn push(builder: &mut RecordBuilder, event: Event) {
    let _ = builder.push(event);
}

/// Sets the signals, and samples the instance.
fn sample(
    alloc: Global,
    signals: usize,
    values: &mut Vec<Option<u64>>,
    builder: &mut RecordBuilder,
) {
    let mut args = Vec::new(alloc);
    let mut signal = 0u16;
    for value in values.iter() {
        let value = *value;
        if (signal as usize) < signals {
            push(builder, Event::Set { signal, value });
            signal = signal.wrapping_add(1);
        } else {
            let _ = args.push(value);
        }
    }
    values.clear();
    let args = List::of(args);
    push(builder, Event::Sample { instance: 0, args });
}

/// Takes a word: a value, or the sample of those before.
fn add_word(
    alloc: Global,
    signals: usize,
    values: &mut Vec<Option<u64>>,
    builder: &mut RecordBuilder,
    word: &str,
) {
    if word == "." {
        sample(alloc, signals, values, builder);
    } else {
        let _ = values.push(word.parse().ok());
    }
}

fn add_words(alloc: Global, signals: usize, builder: &mut RecordBuilder, text: &str) {
    let mut values = Vec::new(alloc);
    for word in text.split_whitespace() {
        add_word(alloc, signals, &mut values, builder, word);
    }
}

fn record_with(alloc: Global, signals: usize, start: Start, text: &str) -> Option<Record> {
    match RecordBuilder::begin(alloc, start) {
        Ok(mut builder) => {
            add_words(alloc, signals, &mut builder, text);
            builder.finish().ok()
        }
        Err(_) => None,
    }
}

/// What the arguments of an instance are, if there is one.
fn args_of(instances: &[InstInfo]) -> &[Signal] {
    match instances.first() {
        Some(instance) => instance.args.as_slice(),
        None => &[],
    }
}

/// The record of the words, for a design of one instance.
pub(crate) fn record_of(alloc: Global, design: &Design, text: &str) -> Option<Record> {
    let signals = design.signals();
    let start = start_of(alloc, signals, args_of(design.instances()));
    record_with(alloc, signals.len(), start, text)
}
