//! Standard input and standard output, or any other reader and writer.
ghost use Rattle.std.specs.Prelude.{◌≡◌, ◌<◌, ℕ, List, None, length};
ghost use Rattle.std.specs.Io.{ReadsAtMost};
ghost use Rattle.std.specs.Io.KnownBytes.{ReadConsumes, WriteAppends};
ghost use Rattle.cov_base.specs.Amounts.{WritesSome};
ghost use Rattle.cov_base.specs.Causes.{HasCause};
ghost use Rattle.cov_base.specs.Told.{Reads, Writes};
ghost use Rattle.cov_net.specs.Calls.{ReadsBy, WritesBy};
ghost use Rattle.cov_net.specs.Counted.{Counted};

use crate::again::{read_told, write_told};
use crate::calls::{ReadCall, WriteCall};
use cov_base::{Failed, Sink, Source};
use std::marker::Model;

/// A reader as a source. An interrupted read is made again.
#[derive(Drop)]
pub struct StdSource<R> {
    inner: R,
    faults: u64,
}

impl<R> Model for StdSource<R> {
    ghost use Rattle.cov_net.specs.Edge.{Edge, edge_code};

    ghost Value = { Edge R };

    ghost coded = { edge_code R.code };

    ghost view = { λ s. record { inner = s.inner; faults = s.faults } };
}

impl<R> StdSource<R> {
    /// A source that hasn't failed yet.
    pub fn new(inner: R) -> Self
        ensures inner { result.inner ≡ inner }
        ensures faults { result.faults ≡ 0 }
    {
        StdSource { inner, faults: 0 }
    }
}

impl<R: ReadCall> Source for StdSource<R> {
    ghost left = { λ s. None };

    ghost faults = { λ s. s.faults };

    fn read(&mut self, into: &mut [u8]) -> Result<usize, Failed>
        requires { 0 < length into.old }
        ensures bound { ReadsAtMost result into.new }
        ensures bytes { Reads None None result into.new }
        ensures cause { HasCause self.old.faults self.new.faults result }
        ensures count { Counted self.old.faults self.new.faults result }
        ensures inner { ReadConsumes (R.remaining self.old.inner) (R.remaining self.new.inner)
            result into.new }
        ensures answer { ReadsBy R.reads (self.old.inner, into.old) result
            (self.new.inner, into.new) }
    {
        match read_told(&mut self.inner, into) {
            Ok(count) => Ok(count),
            Err(failed) => {
                self.faults = self.faults.saturating_add(1);
                Err(failed)
            }
        }
    }
}

/// A writer as a sink. An interrupted write is made again, and one that takes no byte is a failure.
#[derive(Drop)]
pub struct StdSink<W> {
    inner: W,
    faults: u64,
}

impl<W> Model for StdSink<W> {
    ghost use Rattle.cov_net.specs.Edge.{Edge, edge_code};

    ghost Value = { Edge W };

    ghost coded = { edge_code W.code };

    ghost view = { λ s. record { inner = s.inner; faults = s.faults } };
}

impl<W> StdSink<W> {
    /// A sink that hasn't failed yet.
    pub fn new(inner: W) -> Self
        ensures inner { result.inner ≡ inner }
        ensures faults { result.faults ≡ 0 }
    {
        StdSink { inner, faults: 0 }
    }
}

impl<W: WriteCall> Sink for StdSink<W> {
    ghost written = { λ s. None };

    ghost faults = { λ s. s.faults };

    fn write(&mut self, bytes: &[u8]) -> Result<usize, Failed>
        requires { 0 < length bytes.now }
        ensures bound { WritesSome result bytes.now }
        ensures bytes { Writes None None result bytes.now }
        ensures cause { HasCause self.old.faults self.new.faults result }
        ensures count { Counted self.old.faults self.new.faults result }
        ensures inner { WriteAppends (W.contents self.old.inner) (W.contents self.new.inner)
            result bytes.now }
        ensures answer { WritesBy (W.writes bytes.now) self.old.inner result self.new.inner }
    {
        match write_told(&mut self.inner, bytes) {
            Ok(count) => Ok(count),
            Err(failed) => {
                self.faults = self.faults.saturating_add(1);
                Err(failed)
            }
        }
    }
}
