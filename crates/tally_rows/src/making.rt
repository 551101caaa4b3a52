//! Records made event by event.
use crate::records::{all_bytes, record_of, show_again};
use crate::words::{number_of, show_fault, show_line, small_of, split};
use record_codec::{Event, MakeFault, PushFault, Record, RecordBuilder, RecordFault, Start};
use std::alloc::Global;
use std::io::Print;

/// A builder of what stands before the events of a record.
fn begun(alloc: Global, record: Record) -> Option<RecordBuilder> {
    let start = Start {
        version: record.version,
        id: record.id,
        status: record.status,
        seed: record.seed,
        time: record.time,
        user: record.user,
        signals: record.signals,
        instances: record.instances,
    };
    RecordBuilder::begin(alloc, start).ok()
}

/// A builder of what stands before the events of the record of these bytes.
fn builder_of(alloc: Global, bytes: &[u8]) -> Option<RecordBuilder> {
    match record_of(alloc, bytes) {
        Ok(record) => begun(alloc, record),
        Err(_) => None,
    }
}

/// Writes what is answered to an event that sets the second signal.
fn show_outside<R: Print>(rt: &R, builder: &mut RecordBuilder) {
    let event = Event::Set {
        signal: 1,
        value: None,
    };
    match builder.push(event) {
        Ok(()) => show_line(rt, " pushed"),
        Err(fault) => show_fault(rt, &fault),
    }
}

/// Pushes all events of a record.
fn push_all(builder: &mut RecordBuilder, record: Record) -> Result<(), PushFault> {
    for event in record.events.into_vec() {
        builder.push(event)?;
    }
    Ok(())
}

/// Pushes all events of the record of these bytes.
fn push_again(alloc: Global, builder: &mut RecordBuilder, bytes: &[u8]) {
    if let Ok(record) = record_of(alloc, bytes) {
        let _ = push_all(builder, record);
    }
}

/// Writes whether the record that was made is spelled by these bytes, or why there is none.
fn show_made<R: Print>(rt: &R, alloc: Global, made: Result<Record, MakeFault>, bytes: &[u8]) {
    match made {
        Ok(record) => show_again(rt, alloc, &record, bytes),
        Err(fault) => show_fault(rt, &fault),
    }
}

/// Makes the record of these bytes again, and writes what an event of the second signal answers on the way.
fn rebuild<R: Print>(rt: &R, alloc: Global, bytes: &[u8]) {
    if let Some(mut builder) = builder_of(alloc, bytes) {
        show_outside(rt, &mut builder);
        push_again(alloc, &mut builder, bytes);
        show_made(rt, alloc, builder.finish(), bytes);
    }
}

/// BYTES: what an event of a second signal answers, and whether the record that is made of all its events is the same.
pub(crate) fn build<R: Print>(rt: &R, alloc: Global, row: &str) {
    rebuild(rt, alloc, &all_bytes(alloc, row));
}

/// Pushes an event that sets the first signal to this number, or an unknown value, so many times.
fn push_many(builder: &mut RecordBuilder, count: u32, value: Option<u64>) {
    for _ in 0..count {
        let _ = builder.push(Event::Set { signal: 0, value });
    }
}

/// Fills the record of the bytes, and writes whether there is one.
fn show_filled<R: Print>(rt: &R, alloc: Global, bytes: &[u8], count: u32, value: Option<u64>) {
    if let Some(mut builder) = builder_of(alloc, bytes) {
        push_many(&mut builder, count, value);
        show_made(rt, alloc, builder.finish(), b"");
    }
}

/// COUNT VALUE BYTES: the fault of a record with so many events that set the first signal, where VALUE is `x` to an unknown
/// value.
pub(crate) fn fill<R: Print>(rt: &R, alloc: Global, row: &str) {
    let (count, rest) = split(row, ' ');
    let (value, bytes) = split(rest, ' ');
    let value = if value == "x" {
        None
    } else {
        Some(number_of(value))
    };
    show_filled(rt, alloc, &all_bytes(alloc, bytes), small_of(count), value);
}

/// What is said where memory runs out.
pub(crate) fn memory<R: Print>(rt: &R) {
    show_fault(rt, &RecordFault::Memory);
}
