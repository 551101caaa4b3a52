//! Whether the parts of a record are within their limits.
ghost use Rattle.std.specs.Prelude.{◌≡◌, ◌<◌, ◌≤◌, ◌^◌, ◌↔◌, IsTrue, length, []};
ghost use Rattle.std.specs.List.{AllByRecursion};
ghost use Rattle.cov_ground.specs.Limits.{most_bits, most_signals, most_instances, longest_record, most_events};
ghost use Rattle.record_codec.specs.Limits.{IsText, IsArgRow, IsSignalRow, IsInstRow, IsBits, AreArgs, IsEvent, IsStart, most_args};
ghost use Rattle.record_codec.specs.Starts.{with_events, IsTest};

use crate::events::most_of;
use crate::fields::first_bad;
use crate::{ArgRow, Event, InstRow, SignalRow, Start};
use cov_ground::limits::{
    LONGEST_NAME, LONGEST_RECORD, MOST_ARGUMENTS, MOST_BITS, MOST_EVENTS, MOST_INSTANCES,
    MOST_SIGNALS,
};

/// Bytes of a test's id, and of the name of who ran it.
pub const LONGEST_ID: u16 = 255;

/// Whether the text has at least so many bytes and at most so many, each from `low` on and below 127.
fn is_text(least: usize, most: usize, low: u8, text: &[u8]) -> bool
    ensures { IsTrue result ↔ IsText least most low text.now }
{
    if text.len() < least {
        return false;
    }
    if text.len() > most {
        return false;
    }
    match first_bad(low, text) {
        None => true,
        Some(_) => false,
    }
}

/// Whether a signal or an argument may have so many bits.
fn is_width(width: u8) -> bool
    ensures { IsTrue result ↔ ((1 ≤ width) × (width ≤ most_bits)) }
{
    if width < 1 {
        return false;
    }
    width <= MOST_BITS
}

fn are_arg_rows(rows: &[ArgRow]) -> bool
    ensures { IsTrue result ↔ AllByRecursion IsArgRow rows.now }
{
    for row in rows {
        if !is_width(row.width) {
            return false;
        }
    }
    true
}

fn is_signal_row(row: &SignalRow) -> bool
    ensures { IsTrue result ↔ IsSignalRow row.now }
{
    if !is_text(1, LONGEST_NAME as usize, 33, row.name.as_slice()) {
        return false;
    }
    is_width(row.width)
}

fn are_signal_rows(rows: &[SignalRow]) -> bool
    ensures { IsTrue result ↔ AllByRecursion IsSignalRow rows.now }
{
    for row in rows {
        if !is_signal_row(row) {
            return false;
        }
    }
    true
}

// How many arguments an instance may have.
fn most_args(version: u16) -> usize
    ensures { result ≡ most_args version }
{
    if version == 1 { 0 } else { MOST_ARGUMENTS }
}

fn is_inst_row(version: u16, row: &InstRow) -> bool
    ensures { IsTrue result ↔ IsInstRow version row.now }
{
    if !is_text(1, LONGEST_NAME as usize, 33, row.name.as_slice()) {
        return false;
    }
    if !is_text(1, LONGEST_NAME as usize, 33, row.group.as_slice()) {
        return false;
    }
    let args = row.args.as_slice();
    if args.len() > most_args(version) {
        return false;
    }
    are_arg_rows(args)
}

fn are_inst_rows(version: u16, rows: &[InstRow]) -> bool
    ensures { IsTrue result ↔ AllByRecursion (IsInstRow version) rows.now }
{
    for row in rows {
        if !is_inst_row(version, row) {
            return false;
        }
    }
    true
}

// Whether there are not too many signals, each within its limits.
fn is_signal_table(rows: &[SignalRow]) -> bool
    ensures { IsTrue result ↔ ((length rows.now ≤ most_signals) × AllByRecursion IsSignalRow rows.now) }
{
    if rows.len() > MOST_SIGNALS {
        return false;
    }
    are_signal_rows(rows)
}

// Whether there are not too many instances, each within its limits.
fn is_instance_table(version: u16, rows: &[InstRow]) -> bool
    ensures { IsTrue result ↔ ((length rows.now ≤ most_instances) × AllByRecursion (IsInstRow version) rows.now) }
{
    if rows.len() > MOST_INSTANCES {
        return false;
    }
    are_inst_rows(version, rows)
}

// Whether it is a version that is read.
fn is_version(version: u16) -> bool
    ensures { IsTrue result ↔ ((1 ≤ version) × (version < 3)) }
{
    if version < 1 {
        return false;
    }
    version < 3
}

// Whether what tells a test is within its limits.
fn is_test(start: &Start) -> bool
    ensures { IsTrue result ↔ IsTest start.now }
{
    if !is_version(start.version) {
        return false;
    }
    if !is_text(1, LONGEST_ID as usize, 33, start.id.as_slice()) {
        return false;
    }
    if start.status >= 4 {
        return false;
    }
    is_text(0, LONGEST_ID as usize, 32, start.user.as_slice())
}

/// Whether a record may begin so.
pub(crate) fn is_start(start: &Start) -> bool
    ensures { IsTrue result ↔ IsStart (with_events start.now []) }
{
    // Of these all numbers of their type serve, and a proof learns their range where they are read.
    let _seed = start.seed;
    let _time = start.time;
    if !is_test(start) {
        return false;
    }
    if !is_signal_table(start.signals.as_slice()) {
        return false;
    }
    is_instance_table(start.version, start.instances.as_slice())
}

/// Whether the number has no more bits than this.
fn is_below(width: u8, bits: u64) -> bool
    ensures { IsTrue result ↔ bits < 2 ^ width }
{
    bits <= most_of(width)
}

/// Whether a known value has no more bits than this.
fn is_bits(width: u8, value: Option<u64>) -> bool
    ensures { IsTrue result ↔ IsBits width value }
{
    match value {
        None => true,
        Some(bits) => is_below(width, bits),
    }
}

/// Whether the values are those of these arguments, one for each.
fn are_args(rows: &[ArgRow], args: &[Option<u64>]) -> bool
    ensures { IsTrue result ↔ AreArgs rows.now args.now }
{
    if rows.len() != args.len() {
        return false;
    }
    for index in 0..rows.len() {
        if !is_bits(rows[index].width, args[index]) {
            return false;
        }
    }
    true
}

/// Whether the event is one of these signals and instances.
pub(crate) fn is_event(signals: &[SignalRow], instances: &[InstRow], event: &Event) -> bool
    ensures { IsTrue result ↔ IsEvent signals.now instances.now event.now }
{
    match event {
        Event::Set { signal, value } => match signals.get(*signal as usize) {
            None => false,
            Some(row) => is_bits(row.width, *value),
        },
        Event::Sample { instance, args } => match instances.get(*instance as usize) {
            None => false,
            Some(row) => are_args(row.args.as_slice(), args.as_slice()),
        },
    }
}

/// Whether a record may have so many events and bytes.
pub(crate) fn is_within(count: u64, size: u64) -> bool
    ensures { IsTrue result ↔ ((count ≤ most_events) × (size ≤ longest_record)) }
{
    if count > MOST_EVENTS as u64 {
        return false;
    }
    size <= LONGEST_RECORD
}
