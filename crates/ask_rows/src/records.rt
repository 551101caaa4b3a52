//! Records of a design, made from words: of version 1, without a user, and with status, seed and time 0.
use cov_tree::{List, Name};
use design_data::{Design, InstInfo, Signal};
use record_codec::{Event, InstRow, Record, RecordBuilder, SignalRow, Start};
use std::alloc::Global;

/// The name of these bytes.
pub fn name_of(alloc: Global, bytes: &[u8]) -> Name {
    Name::of(alloc, bytes).unwrap_or(Name::empty())
}

fn signal_row(alloc: Global, signal: &Signal) -> SignalRow {
    SignalRow {
        name: name_of(alloc, signal.name.as_slice()),
        width: signal.width,
        signed: signal.signed,
    }
}

fn signal_rows(alloc: Global, signals: &[Signal]) -> List<SignalRow> {
    let mut rows = List::new(alloc);
    for signal in signals {
        let _ = rows.push(signal_row(alloc, signal));
    }
    rows
}

fn group_name(design: &Design, group: u32) -> &[u8] {
    match design.groups().get(group as usize) {
        Some(group) => group.name.as_slice(),
        None => b"",
    }
}

fn instance_row(alloc: Global, design: &Design, inst: &InstInfo) -> InstRow {
    InstRow {
        name: name_of(alloc, inst.name.as_slice()),
        group: name_of(alloc, group_name(design, inst.group)),
        args: List::new(alloc),
    }
}

fn instance_rows(alloc: Global, design: &Design) -> List<InstRow> {
    let mut rows = List::new(alloc);
    for inst in design.instances() {
        let _ = rows.push(instance_row(alloc, design, inst));
    }
    rows
}

fn start_of(alloc: Global, design: &Design, id: &str) -> Start {
    Start {
        version: 1,
        id: name_of(alloc, id.as_bytes()),
        status: 0,
        seed: 0,
        time: 0,
        user: name_of(alloc, b""),
        signals: signal_rows(alloc, design.signals()),
        instances: instance_rows(alloc, design),
    }
}

/// A step: `S=V` sets signal S to V, or to Unknown where V is no number; any other number I samples instance I.
fn event_of(alloc: Global, word: &str) -> Event {
    match word.split_once('=') {
        Some((signal, value)) => Event::Set {
            signal: signal.parse().unwrap_or(0),
            value: value.parse().ok(),
        },
        None => Event::Sample {
            instance: word.parse().unwrap_or(0),
            args: List::new(alloc),
        },
    }
}

/// Takes the steps that the words name.
fn add_steps(alloc: Global, builder: &mut RecordBuilder, words: &str) {
    for word in words.split_whitespace() {
        let _ = builder.push(event_of(alloc, word));
    }
}

/// The record of an id with the steps that the words name; None where it can't be made.
pub fn record_of(alloc: Global, design: &Design, id: &str, words: &str) -> Option<Record> {
    match RecordBuilder::begin(alloc, start_of(alloc, design, id)) {
        Ok(mut builder) => {
            add_steps(alloc, &mut builder, words);
            builder.finish().ok()
        }
        Err(_) => None,
    }
}
