//! Links in memory.
ghost use Rattle.std.specs.Prelude.{◌≡◌, ◌<◌, [], length, Some, option_map};
ghost use Rattle.std.specs.Io.{ReadsAtMost};
ghost use Rattle.cov_spec.specs.Causes.{HasCause};
ghost use Rattle.cov_spec.specs.Told.{Reads, Writes};
ghost use Rattle.cov_base.specs.Amounts.{WritesSome};
ghost use Rattle.cov_base.specs.Memory.{Feeds, FeedsByPlan, Takes, TakesByPlan};
ghost use Rattle.cov_base.specs.Plan.{planned};

use crate::{Failed, Link, MemSink, MemSource, Sink, Source, SureSink, SureSource};
use std::alloc::Global;
use std::marker::Model;

/// A source at hand and a sink in memory, neither of which fails.
#[derive(Drop)]
pub struct SureLink {
    source: SureSource,
    sink: SureSink,
}

impl Model for SureLink {
    ghost use Rattle.cov_base.specs.Memory.{SureWire};

    ghost Value = { SureWire };

    ghost view = { λ link. record { source = link.source; sink = link.sink } };
}

impl SureLink {
    /// A link with these bytes to read and none written, that moves at most `piece` bytes a call.
    pub fn new(alloc: Global, contents: Vec<u8>, piece: usize) -> Self
        requires { 0 < piece }
        ensures { result ≡ record {
          source = record { left = contents.items; piece = piece };
          sink = record { written = Some []; piece = piece };
        } }
    {
        SureLink {
            source: SureSource::new(contents, piece),
            sink: SureSink::new(alloc, piece),
        }
    }

    /// What was written, unless memory ran out.
    pub fn contents(&self) -> Option<&[u8]>
        ensures { option_map (λ bytes. bytes.now) result ≡ self.now.sink.written }
    {
        self.sink.contents()
    }
}

impl Link for SureLink {
    ghost left = { λ link. Some link.source.left };

    ghost written = { λ link. link.sink.written };

    ghost read_faults = { λ link. 0 };

    ghost write_faults = { λ link. 0 };

    fn read(&mut self, into: &mut [u8]) -> Result<usize, Failed>
        requires { 0 < length into.old }
        ensures bound { ReadsAtMost result into.new }
        ensures bytes { Reads (Some self.old.source.left) (Some self.new.source.left)
            result into.new }
        ensures cause { HasCause 0 0 result }
        ensures call { Feeds self.old.source (length into.old) result self.new.source }
        ensures sink { self.new.sink ≡ self.old.sink }
    {
        self.source.read(into)
    }

    fn write(&mut self, bytes: &[u8]) -> Result<usize, Failed>
        requires { 0 < length bytes.now }
        ensures bound { WritesSome result bytes.now }
        ensures bytes { Writes self.old.sink.written self.new.sink.written result bytes.now }
        ensures cause { HasCause 0 0 result }
        ensures call { Takes self.old.sink (length bytes.now) result self.new.sink }
        ensures source { self.new.source ≡ self.old.source }
    {
        self.sink.write(bytes)
    }
}

/// A source at hand and a sink in memory, where some reads and some writes fail. A write fails too where memory runs
/// out.
#[derive(Drop)]
pub struct MemLink {
    source: MemSource,
    sink: MemSink,
}

impl Model for MemLink {
    ghost use Rattle.cov_base.specs.Memory.{PlannedWire};

    ghost Value = { PlannedWire };

    ghost view = { λ link. record { source = link.source; sink = link.sink } };
}

impl MemLink {
    /// A link with these bytes to read and none written, that moves at most `piece` bytes a call and fails at the reads
    /// and at the writes of these numbers, the first read and the first write being 0.
    pub fn new(
        alloc: Global,
        contents: Vec<u8>,
        piece: usize,
        failing_reads: Vec<u64>,
        failing_writes: Vec<u64>,
    ) -> Self
        requires { 0 < piece }
        ensures source { result.source
            ≡ record { left = contents.items; piece = piece; plan = planned failing_reads.items } }
        ensures sink { result.sink
            ≡ record { written = []; piece = piece; plan = planned failing_writes.items } }
    {
        MemLink {
            source: MemSource::new(contents, piece, failing_reads),
            sink: MemSink::new(alloc, piece, failing_writes),
        }
    }

    /// What was written.
    pub fn contents(&self) -> &[u8]
        ensures { result.now ≡ self.now.sink.written }
    {
        self.sink.contents()
    }
}

impl Link for MemLink {
    ghost left = { λ link. Some link.source.left };

    ghost written = { λ link. Some link.sink.written };

    ghost read_faults = { λ link. link.source.plan.faults };

    ghost write_faults = { λ link. link.sink.plan.faults };

    fn read(&mut self, into: &mut [u8]) -> Result<usize, Failed>
        requires { 0 < length into.old }
        ensures bound { ReadsAtMost result into.new }
        ensures bytes { Reads (Some self.old.source.left) (Some self.new.source.left)
            result into.new }
        ensures cause { HasCause self.old.source.plan.faults self.new.source.plan.faults result }
        ensures call { FeedsByPlan self.old.source (length into.old) result self.new.source }
        ensures sink { self.new.sink ≡ self.old.sink }
    {
        self.source.read(into)
    }

    fn write(&mut self, bytes: &[u8]) -> Result<usize, Failed>
        requires { 0 < length bytes.now }
        ensures bound { WritesSome result bytes.now }
        ensures bytes { Writes (Some self.old.sink.written) (Some self.new.sink.written)
            result bytes.now }
        ensures cause { HasCause self.old.sink.plan.faults self.new.sink.plan.faults result }
        ensures call { TakesByPlan self.old.sink (length bytes.now) result self.new.sink }
        ensures source { self.new.source ≡ self.old.source }
    {
        self.sink.write(bytes)
    }
}
