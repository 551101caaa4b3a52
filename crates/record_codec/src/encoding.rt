//! A record as its bytes.
ghost use Rattle.std.specs.Prelude.{◌≡◌, ◌++◌, ◌<◌, ◌^◌, ◌*◌, ◌≤◌, [], length, OnOk, IfOk, Ok};
ghost use Rattle.std.specs.List.{AllByRecursion, flat_map};
ghost use Rattle.cov_ground.specs.Limits.{longest_record, most_events, most_signals, most_instances, most_arguments};
ghost use Rattle.record_codec.specs.Limits.{IsSignalRow, IsInstRow, IsStart, HasFewArgs};
ghost use Rattle.record_codec.specs.Starts.{with_events};
ghost use Rattle.record_codec.specs.Bytes.{text, arg_row, signal_row, arg_table, inst_row, set_value, event};
ghost use Rattle.record_codec.specs.Bytes.{signal_table, instance_table, event_list, front, tables, bytes_of};
ghost use Rattle.record_codec.specs.Spelling.{spelling, fields_of};
ghost use Rattle.record_codec.specs.Reading.{reading};

use crate::{ArgRow, Event, Fields, InstRow, Record, SignalRow, Start};
use appending::append;
use cov_base::Memory;
use cov_tree::Name;
use std::alloc::Global;

/// The letters CVRC.
const LETTERS: [u8; 4] = [0x43, 0x56, 0x52, 0x43];

fn append_text(out: &mut Vec<u8>, name: &Name) -> Result<(), Memory>
    requires { length name.now < 2 ^ 16 }
    ensures { OnOk result (out.new.items ≡ out.old.items ++ text name.now) }
{
    let bytes = name.as_slice();
    append(out, &(bytes.len() as u16).to_be_bytes())?;
    append(out, bytes)
}

// A width and a sign.
fn append_form(out: &mut Vec<u8>, width: u8, signed: bool) -> Result<(), Memory>
    ensures { OnOk result (out.new.items ≡ out.old.items ++ arg_row (record { width = width; signed = signed })) }
{
    append(out, &[width, signed as u8])
}

fn append_signal(out: &mut Vec<u8>, row: &SignalRow) -> Result<(), Memory>
    requires { IsSignalRow row.now }
    ensures { OnOk result (out.new.items ≡ out.old.items ++ signal_row row.now) }
{
    append_text(out, &row.name)?;
    append_form(out, row.width, row.signed)
}

fn append_forms(out: &mut Vec<u8>, rows: &[ArgRow]) -> Result<(), Memory>
    ensures { OnOk result (out.new.items ≡ out.old.items ++ flat_map arg_row rows.now) }
{
    for row in rows {
        append_form(out, row.width, row.signed)?;
    }
    Ok(())
}

// The arguments of an instance. In version 1 nothing stands for them.
fn append_args(out: &mut Vec<u8>, version: u16, rows: &[ArgRow]) -> Result<(), Memory>
    requires { length rows.now ≤ most_arguments }
    ensures { OnOk result (out.new.items ≡ out.old.items ++ arg_table version rows.now) }
{
    if version == 1 {
        return Ok(());
    }
    append(out, &[rows.len() as u8])?;
    append_forms(out, rows)
}

fn append_instance(out: &mut Vec<u8>, version: u16, row: &InstRow) -> Result<(), Memory>
    requires { IsInstRow version row.now }
    ensures { OnOk result (out.new.items ≡ out.old.items ++ inst_row version row.now) }
{
    append_text(out, &row.name)?;
    append_text(out, &row.group)?;
    append_args(out, version, row.args.as_slice())
}

#[inline]
fn append_value(out: &mut Vec<u8>, value: Option<u64>) -> Result<(), Memory>
    ensures { OnOk result (out.new.items ≡ out.old.items ++ set_value value) }
{
    match value {
        None => append(out, &[0]),
        Some(bits) => {
            append(out, &[1])?;
            append(out, &bits.to_be_bytes())
        }
    }
}

fn append_values(out: &mut Vec<u8>, values: &[Option<u64>]) -> Result<(), Memory>
    ensures { OnOk result (out.new.items ≡ out.old.items ++ flat_map set_value values.now) }
{
    for value in values {
        append_value(out, *value)?;
    }
    Ok(())
}

#[inline]
fn append_event(out: &mut Vec<u8>, entry: &Event) -> Result<(), Memory>
    ensures { OnOk result (out.new.items ≡ out.old.items ++ event entry.now) }
{
    match entry {
        Event::Set { signal, value } => {
            let [high, low] = signal.to_be_bytes();
            match value {
                None => append(out, &[1, high, low, 0]),
                Some(bits) => {
                    append(out, &[1, high, low, 1])?;
                    append(out, &bits.to_be_bytes())
                }
            }
        }
        Event::Sample { instance, args } => {
            let [high, low] = instance.to_be_bytes();
            append(out, &[2, high, low])?;
            append_values(out, args.as_slice())
        }
    }
}

fn append_signals(out: &mut Vec<u8>, rows: &[SignalRow]) -> Result<(), Memory>
    requires few { length rows.now ≤ most_signals }
    requires fit { AllByRecursion IsSignalRow rows.now }
    ensures { OnOk result (out.new.items ≡ out.old.items ++ signal_table rows.now) }
{
    append(out, &(rows.len() as u16).to_be_bytes())?;
    for row in rows {
        append_signal(out, row)?;
    }
    Ok(())
}

fn append_instances(out: &mut Vec<u8>, version: u16, rows: &[InstRow]) -> Result<(), Memory>
    requires few { length rows.now ≤ most_instances }
    requires fit { AllByRecursion (IsInstRow version) rows.now }
    ensures { OnOk result (out.new.items ≡ out.old.items ++ instance_table version rows.now) }
{
    append(out, &(rows.len() as u16).to_be_bytes())?;
    for row in rows {
        append_instance(out, version, row)?;
    }
    Ok(())
}

fn append_events(out: &mut Vec<u8>, entries: &[Event]) -> Result<(), Memory>
    requires { length entries.now ≤ most_events }
    ensures { OnOk result (out.new.items ≡ out.old.items ++ event_list entries.now) }
{
    append(out, &(entries.len() as u32).to_be_bytes())?;
    for entry in entries {
        append_event(out, entry)?;
    }
    Ok(())
}

// What stands before the tables.
fn append_front(
    out: &mut Vec<u8>,
    version: u16,
    id: &Name,
    status: u8,
    seed: u64,
    time: u64,
    user: &Name,
) -> Result<(), Memory>
    requires id { length id.now < 2 ^ 16 }
    requires user { length user.now < 2 ^ 16 }
    ensures { OnOk result (out.new.items ≡ out.old.items ++ front version id.now status seed time user.now) }
{
    append(out, &LETTERS)?;
    append(out, &version.to_be_bytes())?;
    append_text(out, id)?;
    append(out, &[status])?;
    append(out, &seed.to_be_bytes())?;
    append(out, &time.to_be_bytes())?;
    append_text(out, user)?;
    Ok(())
}

fn append_tables(
    out: &mut Vec<u8>,
    version: u16,
    signals: &[SignalRow],
    instances: &[InstRow],
    events: &[Event],
) -> Result<(), Memory>
    requires signal_count { length signals.now ≤ most_signals }
    requires signals { AllByRecursion IsSignalRow signals.now }
    requires instance_count { length instances.now ≤ most_instances }
    requires instances { AllByRecursion (IsInstRow version) instances.now }
    requires event_count { length events.now ≤ most_events }
    ensures { OnOk result (out.new.items ≡ out.old.items ++ tables version signals.now instances.now events.now) }
{
    append_signals(out, signals)?;
    append_instances(out, version, instances)?;
    append_events(out, events)?;
    Ok(())
}

/// The bytes of the fields, however many they are.
pub(crate) fn encoded(alloc: Global, fields: &Fields) -> Result<Vec<u8>, Memory>
    requires start { IsStart fields.now }
    requires few { length fields.now.events ≤ most_events }
    ensures { IfOk result (λ bytes. bytes.items ≡ bytes_of fields.now) }
{
    let mut out = Vec::new(alloc);
    append_front(
        &mut out,
        fields.version,
        &fields.id,
        fields.status,
        fields.seed,
        fields.time,
        &fields.user,
    )?;
    let signals = fields.signals.as_slice();
    let instances = fields.instances.as_slice();
    append_tables(
        &mut out,
        fields.version,
        signals,
        instances,
        fields.events.as_slice(),
    )?;
    Ok(out)
}

/// The bytes of the record that begins so and has no events.
pub(crate) fn encoded_start(alloc: Global, start: &Start) -> Result<Vec<u8>, Memory>
    requires { IsStart (with_events start.now []) }
    ensures { IfOk result (λ bytes. bytes.items ≡ bytes_of (with_events start.now [])) }
{
    let mut out = Vec::new(alloc);
    append_front(
        &mut out,
        start.version,
        &start.id,
        start.status,
        start.seed,
        start.time,
        &start.user,
    )?;
    let signals = start.signals.as_slice();
    let instances = start.instances.as_slice();
    append_tables(&mut out, start.version, signals, instances, &[])?;
    Ok(out)
}

/// How many bytes a value has.
fn value_size(value: Option<u64>) -> u64
    ensures bytes { result ≡ length (set_value value) }
    ensures few { result ≤ 9 }
{
    match value {
        None => 1,
        Some(_) => 9,
    }
}

/// How many bytes the values of arguments have, of 16 at most.
fn values_size(values: &[Option<u64>]) -> u64
    requires { length values.now ≤ most_arguments }
    ensures bytes { result ≡ length (flat_map set_value values.now) }
    ensures few { result ≤ 9 * most_arguments }
{
    let mut size = 0;
    for value in values {
        size += value_size(*value);
    }
    size
}

/// How many bytes the event has.
pub(crate) fn event_size(entry: &Event) -> u64
    requires { HasFewArgs entry.now }
    ensures { result ≡ length (event entry.now) }
{
    match entry {
        Event::Set { value: None, .. } => 4,
        Event::Set { value: Some(_), .. } => 12,
        Event::Sample { args, .. } => 3 + values_size(args.as_slice()),
    }
}

/// The bytes of the record: `decode` reads the record from them.
pub fn encode(alloc: Global, rec: &Record) -> Result<Vec<u8>, Memory>
    ensures spelled { IfOk result (λ bytes. bytes.items ≡ spelling rec.now) }
    ensures short { IfOk result (λ bytes. length bytes.items ≤ longest_record) }
    ensures read_back { IfOk result (λ bytes. reading bytes.items ≡ Ok (fields_of rec.now)) }
{
    let mut out = Vec::new(alloc);
    append_front(
        &mut out,
        rec.version,
        &rec.id,
        rec.status,
        rec.seed,
        rec.time,
        &rec.user,
    )?;
    let signals = rec.signals.as_slice();
    let instances = rec.instances.as_slice();
    append_tables(
        &mut out,
        rec.version,
        signals,
        instances,
        rec.events.as_slice(),
    )?;
    Ok(out)
}
