//! A record that is made event by event.
ghost use Rattle.record_codec.specs.Starts.{IsSound, IsSound-prop};

use crate::encoding::{encoded_start, event_size};
use crate::keeping::keep;
use crate::limits::{is_event, is_start, is_within};
use crate::making::{MakeFault, PushFault, StartFault, record_with};
use crate::{Event, Record, Start};
use cov_ground::limits::{LONGEST_RECORD, MOST_EVENTS};
use cov_tree::List;
use std::alloc::Global;

/// A record in the making: what stands before its events, and the events pushed so far. Events beyond the limits of a
/// record are counted, so that `finish` can tell how many there were, and not kept.
#[derive(Drop)]
pub struct RecordBuilder {
    start: Start,
    kept: Vec<Event>,
    count: u64,
    size: u64,
    ghost sound: { IsSound start kept.items count size } by { IsSound-prop start kept.items count size },
}

impl RecordBuilder {
    ghost use Rattle.std.specs.Prelude.{List};
    ghost use Rattle.record_codec.specs.declared.record.Event.{Event};
    ghost use Rattle.record_codec.specs.declared.record.Start.{Start};
    ghost use Rattle.record_codec.specs.Builders.{HasPushed, Begins, Pushes, Finishes};

    /// A builder without events, where the start is within its limits. It takes memory for the start's bytes and gives it
    /// back.
    pub fn begin(alloc: Global, start: Start) -> Result<RecordBuilder, StartFault>
        ensures { Begins start result }
    {
        if !is_start(&start) {
            return Err(StartFault::BeyondLimits);
        }
        let size = encoded_start(alloc, &start)?.len() as u64;
        Ok(RecordBuilder {
            start,
            kept: Vec::new(alloc),
            count: 0,
            size,
        })
    }

    /// One more event, where it is one of the record's signals and instances. It takes memory only as the list grows.
    pub fn push(&mut self, event: Event) -> Result<(), PushFault>
        ensures { (start : Start) (events : List Event) → HasPushed self.old start events →
            Pushes start events event self.new result }
    {
        let signals = self.start.signals.as_slice();
        if !is_event(signals, self.start.instances.as_slice(), &event) {
            return Err(PushFault::OtherTables);
        }
        let count = self.count.saturating_add(1);
        let size = self.size.saturating_add(event_size(&event));
        keep(&mut self.kept, is_within(count, size), event)?;
        self.count = count;
        self.size = size;
        Ok(())
    }

    /// The record, where it is within its limits; or the number of all events pushed, and else that of all the record's
    /// bytes, each told as 2^64 - 1 where it is more. It takes no memory.
    pub fn finish(self) -> Result<Record, MakeFault>
        ensures { (start : Start) (events : List Event) → HasPushed self start events →
            Finishes start events result }
    {
        if self.count > MOST_EVENTS as u64 {
            return Err(MakeFault::TooManyEvents { n: self.count });
        }
        if self.size > LONGEST_RECORD {
            return Err(MakeFault::TooLong { n: self.size });
        }
        Ok(record_with(self.start, List::of(self.kept)))
    }
}
