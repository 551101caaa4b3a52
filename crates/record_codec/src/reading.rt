//! A whole record, read from left to right up to its first fault.
ghost use Rattle.std.specs.Prelude.{◌≡◌};
ghost use Rattle.record_codec.specs.Reading.{Gives, version_at, head_at, test_at, record_at, whole};

use crate::events::event_list;
use crate::fault::Fault;
use crate::fields::{text_within, u8_within, u16_at, u32_at, u64_at};
use crate::limits::LONGEST_ID;
use crate::record::{Fields, TestRow};
use crate::rows::{instance_table, signal_table};
use std::alloc::Global;

/// The first four bytes, CVRC, as one number.
const MAGIC: u32 = 0x4356_5243;

#[tactic(auto, unfolding(crate::specs::Reading::version_at))]
fn version(bytes: &[u8]) -> Result<(u16, &[u8]), Fault>
    ensures { Gives (λ x. (x.0, x.1.now)) result (version_at bytes.now) }
{
    let (version, rest) = u16_at(bytes)?;
    if version < 1 {
        return Err(Fault::BadVersion { version });
    }
    if version > 2 {
        return Err(Fault::BadVersion { version });
    }
    Ok((version, rest))
}

#[tactic(auto, unfolding(crate::specs::Reading::head_at))]
fn head(bytes: &[u8]) -> Result<(u16, &[u8]), Fault>
    ensures { Gives (λ x. (x.0, x.1.now)) result (head_at bytes.now) }
{
    let (magic, rest) = u32_at(bytes)?;
    if magic != MAGIC {
        return Err(Fault::BadMagic);
    }
    version(rest)
}

#[tactic(auto, unfolding(crate::specs::Reading::test_at))]
fn test_row(alloc: Global, bytes: &[u8]) -> Result<(TestRow, &[u8]), Fault>
    ensures { Gives (λ x. (x.0, x.1.now)) result (test_at bytes.now) }
{
    let (id, rest) = text_within(alloc, 1, LONGEST_ID, 33, bytes)?;
    let (status, rest) = u8_within(0, 3, rest)?;
    let (seed, rest) = u64_at(rest)?;
    let (time, rest) = u64_at(rest)?;
    let (user, rest) = text_within(alloc, 0, LONGEST_ID, 32, rest)?;
    let row = TestRow {
        id,
        status,
        seed,
        time,
        user,
    };
    Ok((row, rest))
}

// The record at the front of the bytes.
#[tactic(auto, unfolding(crate::specs::Reading::record_at))]
fn front_record(alloc: Global, bytes: &[u8]) -> Result<(Fields, &[u8]), Fault>
    ensures { Gives (λ x. (x.0, x.1.now)) result (record_at bytes.now) }
{
    let (version, rest) = head(bytes)?;
    let (test, rest) = test_row(alloc, rest)?;
    let (signals, rest) = signal_table(alloc, rest)?;
    let (instances, rest) = instance_table(alloc, version, rest)?;
    let (events, rest) = event_list(alloc, signals.as_slice(), instances.as_slice(), rest)?;
    let fields = Fields {
        version,
        id: test.id,
        status: test.status,
        seed: test.seed,
        time: test.time,
        user: test.user,
        signals,
        instances,
        events,
    };
    Ok((fields, rest))
}

/// The record that is all of the bytes, or their first fault.
#[tactic(auto, unfolding(crate::specs::Reading::whole))]
pub(crate) fn whole_record(alloc: Global, bytes: &[u8]) -> Result<Fields, Fault>
    ensures { Gives (λ r. r) result (whole bytes.now) }
{
    let (fields, rest) = front_record(alloc, bytes)?;
    if !rest.is_empty() {
        return Err(Fault::Trailing { left: rest.len() });
    }
    Ok(fields)
}
