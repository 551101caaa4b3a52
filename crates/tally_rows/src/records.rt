//! Records read and spelled. Their bytes are words of digits, which stand as often as the number behind a `*` says.
use crate::words::{bytes_of, show, show_fault, show_number, small_of};
use cov_tree::Name;
use record_codec::{Event, InstRow, Record, RecordFault, SignalRow, decode, encode};
use std::alloc::Global;
use std::io::Print;

/// The most bytes of a row.
const MOST: usize = 100_000;

/// Adds the bytes of a word.
fn add_word(alloc: Global, bytes: &mut Vec<u8>, word: &str) {
    let (digits, times) = word.split_once('*').unwrap_or((word, "1"));
    let piece = bytes_of(alloc, digits);
    for _ in 0..small_of(times) {
        let _ = bytes.extend_from_slice(&piece);
    }
}

/// The bytes of the words.
pub(crate) fn all_bytes(alloc: Global, text: &str) -> Vec<u8> {
    let mut bytes = Vec::new(alloc);
    for word in text.split_whitespace() {
        add_word(alloc, &mut bytes, word);
    }
    bytes
}

/// The record of the bytes, which are no more than `MOST`.
pub(crate) fn record_of(alloc: Global, bytes: &[u8]) -> Result<Record, RecordFault> {
    if bytes.len() > MOST {
        return Err(RecordFault::Memory);
    }
    decode(alloc, bytes)
}

/// Writes a name behind a blank.
fn show_name<R: Print>(rt: &R, name: &Name) {
    show(rt, " ");
    show(rt, str::from_utf8(name.as_slice()).unwrap_or("?"));
}

/// Writes a width, and whether it has a sign.
fn show_type<R: Print>(rt: &R, width: u8, signed: bool) {
    show_number(rt, u64::from(width));
    show(rt, if signed { "s" } else { "u" });
}

/// Writes what stands before the tables.
fn show_head<R: Print>(rt: &R, record: &Record) {
    show_number(rt, u64::from(record.version));
    show_name(rt, &record.id);
    show_number(rt, u64::from(record.status));
    show_number(rt, record.seed);
    show_number(rt, record.time);
    show_name(rt, &record.user);
}

/// Writes a signal.
fn show_signal<R: Print>(rt: &R, row: &SignalRow) {
    show(rt, " | signal");
    show_name(rt, &row.name);
    show_type(rt, row.width, row.signed);
}

/// Writes an instance.
fn show_instance<R: Print>(rt: &R, row: &InstRow) {
    show(rt, " | instance");
    show_name(rt, &row.name);
    show_name(rt, &row.group);
    for arg in row.args.as_slice() {
        show_type(rt, arg.width, arg.signed);
    }
}

/// Writes a value, or `x`.
fn show_value<R: Print>(rt: &R, value: Option<u64>) {
    match value {
        Some(value) => show_number(rt, value),
        None => show(rt, " x"),
    }
}

/// Writes an event.
fn show_event<R: Print>(rt: &R, event: &Event) {
    match event {
        Event::Set { signal, value } => {
            show(rt, " | set");
            show_number(rt, u64::from(*signal));
            show_value(rt, *value);
        }
        Event::Sample { instance, args } => {
            show(rt, " | sample");
            show_number(rt, u64::from(*instance));
            for arg in args.as_slice() {
                show_value(rt, *arg);
            }
        }
    }
}

/// Writes each field of a record.
fn show_record<R: Print>(rt: &R, record: &Record) {
    show_head(rt, record);
    for row in record.signals.as_slice() {
        show_signal(rt, row);
    }
    for row in record.instances.as_slice() {
        show_instance(rt, row);
    }
    for event in record.events.as_slice() {
        show_event(rt, event);
    }
}

/// BYTES: each field of the record, or its first fault.
pub(crate) fn record<R: Print>(rt: &R, alloc: Global, row: &str) {
    match record_of(alloc, &all_bytes(alloc, row)) {
        Ok(record) => show_record(rt, &record),
        Err(fault) => show_fault(rt, &fault),
    }
}

/// Writes whether a record is spelled by these bytes.
pub(crate) fn show_again<R: Print>(rt: &R, alloc: Global, record: &Record, bytes: &[u8]) {
    if let Ok(spelled) = encode(alloc, record) {
        let is_same = spelled.as_slice() == bytes;
        show(rt, if is_same { " same" } else { " other" });
    }
}

/// Writes whether the record of the bytes is spelled by them, or its first fault.
fn show_spelled<R: Print>(rt: &R, alloc: Global, bytes: &[u8]) {
    match record_of(alloc, bytes) {
        Ok(record) => show_again(rt, alloc, &record, bytes),
        Err(fault) => show_fault(rt, &fault),
    }
}

/// BYTES: whether the record is spelled by the same bytes, or its first fault.
pub(crate) fn again<R: Print>(rt: &R, alloc: Global, row: &str) {
    show_spelled(rt, alloc, &all_bytes(alloc, row));
}
