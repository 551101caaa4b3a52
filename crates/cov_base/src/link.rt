//! Both ways at once: bytes in and bytes out.
ghost use Rattle.std.specs.Prelude.{◌≡◌, ℕ, ◌<◌, List, Option, length};
ghost use Rattle.std.specs.Io.{ReadsAtMost};
ghost use Rattle.cov_spec.specs.Causes.{HasCause};
ghost use Rattle.cov_spec.specs.Told.{Reads, Writes};
ghost use Rattle.cov_base.specs.Amounts.{WritesSome};

use crate::{Failed, Sink, Source};

/// A connection: a stream of bytes to read and one to write, each with a count of its failures.
pub trait Link {
    /// The bytes still to come, where it tells them. It may stop telling them, and never begins again.
    ghost left: { Self → Option (List ℕ) };

    /// The bytes written, where it tells them. It may stop telling them, and never begins again.
    ghost written: { Self → Option (List ℕ) };

    /// How often a read has failed. The count never falls, and stands still at 2^64-1.
    ghost read_faults: { Self → ℕ };

    /// How often a write has failed. The count never falls, and stands still at 2^64-1.
    ghost write_faults: { Self → ℕ };

    /// Reads as a `Source` does. What is written stays.
    fn read(&mut self, into: &mut [u8]) -> Result<usize, Failed>
        requires { 0 < length into.old }
        ensures bound { ReadsAtMost result into.new }
        ensures bytes { Reads (left self.old) (left self.new) result into.new }
        ensures cause { HasCause (read_faults self.old) (read_faults self.new) result }
        ensures same_written { written self.new ≡ written self.old }
        ensures same_faults { write_faults self.new ≡ write_faults self.old };

    /// Writes as a `Sink` does. What is left stays.
    fn write(&mut self, bytes: &[u8]) -> Result<usize, Failed>
        requires { 0 < length bytes.now }
        ensures bound { WritesSome result bytes.now }
        ensures bytes { Writes (written self.old) (written self.new) result bytes.now }
        ensures cause { HasCause (write_faults self.old) (write_faults self.new) result }
        ensures same_left { left self.new ≡ left self.old }
        ensures same_faults { read_faults self.new ≡ read_faults self.old };
}

/// The link of a source and a sink: a read is one call of the source, and a write one of the sink.
#[derive(Drop)]
pub struct Pair<'a, S, K> {
    pub source: &'a mut S,
    pub sink: &'a mut K,
}

impl<S: Source, K: Sink> Link for Pair<'_, S, K> {
    ghost left = { λ pair. S.left pair.source.now };

    ghost written = { λ pair. K.written pair.sink.now };

    ghost read_faults = { λ pair. S.faults pair.source.now };

    ghost write_faults = { λ pair. K.faults pair.sink.now };

    fn read(&mut self, into: &mut [u8]) -> Result<usize, Failed>
        requires { 0 < length into.old }
        ensures bound { ReadsAtMost result into.new }
        ensures bytes { Reads (S.left self.old.source.now) (S.left self.new.source.now)
            result into.new }
        ensures cause { HasCause (S.faults self.old.source.now) (S.faults self.new.source.now)
            result }
        ensures call { S.read_gives self.old.source.now into.old
            result self.new.source.now into.new }
        ensures sink { self.new.sink.now ≡ self.old.sink.now }
    {
        self.source.read(into)
    }

    fn write(&mut self, bytes: &[u8]) -> Result<usize, Failed>
        requires { 0 < length bytes.now }
        ensures bound { WritesSome result bytes.now }
        ensures bytes { Writes (K.written self.old.sink.now) (K.written self.new.sink.now)
            result bytes.now }
        ensures cause { HasCause (K.faults self.old.sink.now) (K.faults self.new.sink.now) result }
        ensures call { K.write_gives self.old.sink.now bytes.now result self.new.sink.now }
        ensures source { self.new.source.now ≡ self.old.source.now }
    {
        self.sink.write(bytes)
    }
}
