//! A record from its bytes.
ghost use Rattle.std.specs.Prelude.{◌≡◌, ◌-◌, ◌≤◌, length, IfOk, IfErr, Err};
ghost use Rattle.cov_ground.specs.Limits.{longest_record};
ghost use Rattle.record_codec.specs.declared.record.Record.{Record};
ghost use Rattle.record_codec.specs.Limits.{IsWithinLimits};
ghost use Rattle.record_codec.specs.Reading.{told, reading, HasRead};
ghost use Rattle.record_codec.specs.Spelling.{fields_of, Encodes};

use crate::fault::Fault;
use crate::making::record_of;
use crate::reading::whole_record;
use crate::{Record, RecordFault};
use std::alloc::Global;

// The place where so many bytes are left, counted from the front.
fn place(total: usize, left: usize) -> u32
    requires { total ≤ longest_record }
    ensures { result ≡ total - left }
{
    total.saturating_sub(left) as u32
}

// The fault with its place counted from the front.
fn fault_told(total: usize, fault: Fault) -> RecordFault
    requires { total ≤ longest_record }
    ensures { result ≡ told total fault }
{
    match fault {
        Fault::Short { left } => RecordFault::Short {
            at: place(total, left),
        },
        Fault::BadMagic => RecordFault::BadMagic,
        Fault::BadVersion { version } => RecordFault::BadVersion { v: version },
        Fault::BadField { left } => RecordFault::BadField {
            at: place(total, left),
        },
        Fault::TooManyEvents { count } => RecordFault::TooManyEvents { n: count as u64 },
        Fault::Trailing { left } => RecordFault::Trailing {
            at: place(total, left),
        },
        Fault::Memory => RecordFault::Memory,
    }
}

/// The record that the bytes spell, all of them; or the first fault in reading order, with its place. The bytes are at
/// most 8,388,608, and spell a record of version 1 or 2.
pub fn decode(alloc: Global, bytes: &[u8]) -> Result<Record, RecordFault>
    requires { length bytes.now ≤ longest_record }
    // The result is that of reading the bytes.
    ensures told { HasRead result (reading bytes.now) }
    ensures read { IfOk result (λ r. Encodes r bytes.now) }
    ensures only { IfOk result (λ r. (other : Record) → Encodes other bytes.now → other ≡ r) }
    ensures none { IfErr result
        (λ fault. (fault ≡ RecordFault.Memory → ⊥) → (r : Record) → Encodes r bytes.now → ⊥) }
{
    match whole_record(alloc, bytes) {
        Ok(fields) => Ok(record_of(fields)),
        Err(fault) => Err(fault_told(bytes.len(), fault)),
    }
}
