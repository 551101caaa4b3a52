//! A record made from its fields.
ghost use Rattle.std.specs.Prelude.{◌≡◌};
ghost use Rattle.std.specs.List.{AllByRecursion};
ghost use Rattle.record_codec.specs.Limits.{IsStart, IsEvent, IsWithinLimits};
ghost use Rattle.record_codec.specs.Spelling.{fields_of};
ghost use Rattle.record_codec.specs.Starts.{with_events};
ghost use Rattle.record_codec.specs.Making.{Makes};
ghost use Rattle.record_codec.specs.declared.making.MakeFault.TheVariants as faults;
ghost use Rattle.record_codec.specs.declared.making.StartFault.TheVariants as starts;
ghost use Rattle.record_codec.specs.declared.making.PushFault.TheVariants as pushes;

use crate::encoding::encoded;
use crate::{Event, Fields, Record, Start};
use cov_ground::limits::{LONGEST_RECORD, MOST_EVENTS};
use cov_tree::List;
use std::alloc::{AllocFailed, Global};
use thiserror::Error;

/// Why fields make no record: they are above a limit, or memory ran out.
#[derive(Clone, Copy, Debug, PartialEq, Eq, Error)]
pub enum MakeFault {
    /// There are `n` events, more than 1,048,576.
    #[error("{n} events are too many")]
    TooManyEvents { n: u64 },
    /// The record's bytes are `n`, more than 8,388,608.
    #[error("{n} bytes are too many")]
    TooLong { n: u64 },
    /// Memory ran out.
    #[error("out of memory")]
    Memory,
}

/// Why no record is begun.
#[derive(Clone, Copy, Debug, PartialEq, Eq, Error)]
pub enum StartFault {
    /// What stands before the events is not within its limits.
    #[error("what stands before the events is not within its limits")]
    BeyondLimits,
    /// Memory ran out.
    #[error("out of memory")]
    Memory,
}

/// Why an event is not pushed.
#[derive(Clone, Copy, Debug, PartialEq, Eq, Error)]
pub enum PushFault {
    /// Its signal or instance is none of the record's, or a value has more bits than there are, or the number of its
    /// values is not that of the instance's arguments.
    #[error("the event is not one of the record's signals and instances")]
    OtherTables,
    /// Memory ran out.
    #[error("out of memory")]
    Memory,
}

impl From<cov_base::Memory> for StartFault {
    ghost from_gives = { λ _ e. e ≡ starts.Memory };

    fn from(_: cov_base::Memory) -> Self {
        StartFault::Memory
    }
}

impl<T: Drop> From<AllocFailed<T>> for PushFault {
    ghost from_gives = { λ _ e. e ≡ pushes.Memory };

    fn from(_: AllocFailed<T>) -> Self {
        PushFault::Memory
    }
}

impl From<cov_base::Memory> for MakeFault {
    ghost from_gives = { λ _ e. e ≡ faults.Memory };

    fn from(_: cov_base::Memory) -> Self {
        MakeFault::Memory
    }
}

/// The record that has these fields.
pub(crate) fn record_of(fields: Fields) -> Record
    requires { IsWithinLimits fields }
    ensures { fields_of result ≡ fields }
{
    Record {
        version: fields.version,
        id: fields.id,
        status: fields.status,
        seed: fields.seed,
        time: fields.time,
        user: fields.user,
        signals: fields.signals,
        instances: fields.instances,
        events: fields.events,
    }
}

/// The record that begins so and has these events.
pub(crate) fn record_with(start: Start, events: List<Event>) -> Record
    requires { IsWithinLimits (with_events start events) }
    ensures { fields_of result ≡ with_events start events }
{
    record_of(Fields {
        version: start.version,
        id: start.id,
        status: start.status,
        seed: start.seed,
        time: start.time,
        user: start.user,
        signals: start.signals,
        instances: start.instances,
        events,
    })
}

/// The record that has these fields; or, where they are above a limit, the number of all their events, and else that of
/// all their bytes. It takes memory for the bytes and gives it back.
pub fn checked_record(alloc: Global, fields: Fields) -> Result<Record, MakeFault>
    requires start { IsStart fields }
    requires events { AllByRecursion (IsEvent fields.signals fields.instances) fields.events }
    ensures { Makes fields result }
{
    let count = fields.events.as_slice().len();
    if count > MOST_EVENTS as usize {
        return Err(MakeFault::TooManyEvents { n: count as u64 });
    }
    let length = encoded(alloc, &fields)?.len() as u64;
    if length > LONGEST_RECORD {
        return Err(MakeFault::TooLong { n: length });
    }
    Ok(record_of(fields))
}
