//! Connections of a network, or any other streams that go both ways, and where they come from.
ghost use Rattle.std.specs.Prelude.{◌≡◌, ◌<◌, None, IfOk, length};
ghost use Rattle.std.specs.Io.{ReadsAtMost};
ghost use Rattle.std.specs.Io.KnownBytes.{ReadConsumes, WriteAppends};
ghost use Rattle.cov_base.specs.Amounts.{WritesSome};
ghost use Rattle.cov_base.specs.Causes.{HasCause};
ghost use Rattle.cov_base.specs.Plan.{one_more_at_ok};
ghost use Rattle.cov_base.specs.Told.{Reads, Writes};
ghost use Rattle.cov_net.specs.Calls.{AcceptsBy, ReadsBy, WritesBy};
ghost use Rattle.cov_net.specs.Counted.{Counted};

use crate::again::{accept_told, read_told, write_told};
use crate::calls::{AcceptCall, ReadCall, WriteCall};
use cov_base::{Door, Failed, Link};
use std::marker::Model;
use std::net::OpenStream;

/// A connection as a link. An interrupted call is made again, and a write that takes no byte is a failure.
#[derive(Drop)]
pub struct TcpLink<S> {
    inner: S,
    read_faults: u64,
    write_faults: u64,
}

impl<S> Model for TcpLink<S> {
    ghost use Rattle.cov_net.specs.Edge.{Wire, wire_code};

    ghost Value = { Wire S };

    ghost coded = { wire_code S.code };

    ghost view = { λ l. record { inner = l.inner; read_faults = l.read_faults; write_faults = l.write_faults } };
}

impl<S> TcpLink<S> {
    /// A link that hasn't failed yet.
    pub fn new(inner: S) -> Self
        ensures inner { result.inner ≡ inner }
        ensures read_faults { result.read_faults ≡ 0 }
        ensures write_faults { result.write_faults ≡ 0 }
    {
        TcpLink {
            inner,
            read_faults: 0,
            write_faults: 0,
        }
    }
}

impl<S: ReadCall + WriteCall> Link for TcpLink<S> {
    ghost left = { λ l. None };

    ghost written = { λ l. None };

    ghost read_faults = { λ l. l.read_faults };

    ghost write_faults = { λ l. l.write_faults };

    fn read(&mut self, into: &mut [u8]) -> Result<usize, Failed>
        requires { 0 < length into.old }
        ensures bound { ReadsAtMost result into.new }
        ensures bytes { Reads None None result into.new }
        ensures cause { HasCause self.old.read_faults self.new.read_faults result }
        ensures count { Counted self.old.read_faults self.new.read_faults result }
        ensures same_faults { self.new.write_faults ≡ self.old.write_faults }
        ensures inner { ReadConsumes (S.remaining self.old.inner) (S.remaining self.new.inner)
            result into.new }
        ensures answer { ReadsBy S.reads (self.old.inner, into.old) result
            (self.new.inner, into.new) }
    {
        match read_told(&mut self.inner, into) {
            Ok(count) => Ok(count),
            Err(failed) => {
                self.read_faults = self.read_faults.saturating_add(1);
                Err(failed)
            }
        }
    }

    fn write(&mut self, bytes: &[u8]) -> Result<usize, Failed>
        requires { 0 < length bytes.now }
        ensures bound { WritesSome result bytes.now }
        ensures bytes { Writes None None result bytes.now }
        ensures cause { HasCause self.old.write_faults self.new.write_faults result }
        ensures count { Counted self.old.write_faults self.new.write_faults result }
        ensures same_faults { self.new.read_faults ≡ self.old.read_faults }
        ensures inner { WriteAppends (S.contents self.old.inner) (S.contents self.new.inner)
            result bytes.now }
        ensures answer { WritesBy (S.writes bytes.now) self.old.inner result self.new.inner }
    {
        match write_told(&mut self.inner, bytes) {
            Ok(count) => Ok(count),
            Err(failed) => {
                self.write_faults = self.write_faults.saturating_add(1);
                Err(failed)
            }
        }
    }
}

/// A listener as a door. Contracts see how many links it has handed out, and how often it has failed.
#[derive(Drop)]
pub struct TcpDoor<'a, L> {
    listener: &'a L,
    handed: u64,
    faults: u64,
}

impl<'a, L> Model for TcpDoor<'a, L> {
    ghost use Rattle.cov_net.specs.Edge.{Entrance};

    ghost Value = { Entrance };

    ghost view = { λ d. record { handed = d.handed; faults = d.faults } };
}

impl<'a, L> TcpDoor<'a, L> {
    /// A door that has handed out nothing, and hasn't failed yet.
    pub fn new(listener: &'a L) -> Self
        ensures { result ≡ record { handed = 0; faults = 0 } }
    {
        TcpDoor {
            listener,
            handed: 0,
            faults: 0,
        }
    }
}

impl<L> Door for TcpDoor<'_, L>
where
    L: AcceptCall,
    L::Stream: ReadCall + WriteCall + OpenStream,
{
    type Wire = TcpLink<L::Stream>;

    ghost handed = { λ d. d.handed };

    ghost faults = { λ d. d.faults };

    fn accept(&mut self) -> Result<TcpLink<L::Stream>, Failed>
        ensures handed { self.new.handed ≡ one_more_at_ok result self.old.handed }
        ensures cause { HasCause self.old.faults self.new.faults result }
        ensures count { Counted self.old.faults self.new.faults result }
        ensures read_faults { IfOk result (λ link. link.read_faults ≡ 0) }
        ensures write_faults { IfOk result (λ link. link.write_faults ≡ 0) }
        ensures answer { AcceptsBy L.accepts (λ link. link.inner) result }
    {
        match accept_told(self.listener) {
            Ok(stream) => {
                // replies are written whole, so none has to wait for more bytes; where this is refused they come later
                let _ = stream.set_nodelay(true);
                self.handed = self.handed.saturating_add(1);
                Ok(TcpLink::new(stream))
            }
            Err(failed) => {
                self.faults = self.faults.saturating_add(1);
                Err(failed)
            }
        }
    }
}
