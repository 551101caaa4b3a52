//! The calls on the outside, each with what it gave. That is known of a call that was made, and of no other.
ghost use Rattle.std.specs.Prelude.{ℕ, List, Result};
ghost use Rattle.std.specs.Io.{ReadsAtMost, WritesAtMost};
ghost use Rattle.std.specs.Io.KnownBytes.{ReadConsumes, WriteAppends};
ghost use Rattle.std.specs.declared.fs.attrs.Metadata.{Metadata};
ghost use Rattle.std.specs.declared.io.Error.{Error};

use std::fs::{File, Metadata, OpenFile};
use std::io;
use std::io::{Read, Write};
use std::net::OpenListener;
use std::rt::Files;

/// A reader and what its reads give.
pub trait ReadCall: Read {
    /// The reader and the room before a read, its answer, and both after it.
    ghost reads: { Self × List ℕ → Result ℕ Error → Self × List ℕ → Type 0 };

    /// One read.
    fn call_read(&mut self, into: &mut [u8]) -> io::Result<usize>
        ensures bound { ReadsAtMost result into.new }
        ensures bytes { ReadConsumes (Self.remaining self.old) (Self.remaining self.new)
            result into.new }
        ensures reads { reads (self.old, into.old) result (self.new, into.new) };
}

impl<R: Read> ReadCall for R {
    ghost reads = { λ _ _ _. Unit {0} };

    fn call_read(&mut self, into: &mut [u8]) -> io::Result<usize> {
        self.read(into)
    }
}

/// A writer and what its writes give.
pub trait WriteCall: Write {
    /// The bytes to write, the writer before the write, its answer, and the writer after it.
    ghost writes: { List ℕ → Self → Result ℕ Error → Self → Type 0 };

    /// One write.
    fn call_write(&mut self, bytes: &[u8]) -> io::Result<usize>
        ensures bound { WritesAtMost result bytes.now }
        ensures bytes { WriteAppends (Self.contents self.old) (Self.contents self.new)
            result bytes.now }
        ensures writes { writes bytes.now self.old result self.new };
}

impl<W: Write> WriteCall for W {
    ghost writes = { λ _ _ _ _. Unit {0} };

    fn call_write(&mut self, bytes: &[u8]) -> io::Result<usize> {
        self.write(bytes)
    }
}

/// A listener and what it accepts.
pub trait AcceptCall: OpenListener {
    /// What an accept gave.
    ghost accepts: { Result Self.Stream Error → Type 0 };

    /// One accept.
    fn call_accept(&self) -> io::Result<Self::Stream>
        ensures accepts { accepts result };
}

impl<L: OpenListener> AcceptCall for L {
    ghost accepts = { λ _. Unit {0} };

    fn call_accept(&self) -> io::Result<L::Stream> {
        let (stream, _) = self.accept()?;
        Ok(stream)
    }
}

/// A system's files, and what it gives of them.
pub trait Disk {
    /// An open file.
    type Opened: ReadCall + Drop;

    /// What an opening of the file of that name gave.
    ghost opens: { List ℕ → Result Self.Opened Error → Type 0 };

    /// What the system said of an open file.
    ghost tells: { Self.Opened → Result Metadata Error → Type 0 };

    /// Opens a file to be read.
    fn call_open(&self, name: &str) -> io::Result<Self::Opened>
        ensures opens { opens name.now result };

    /// What the system says of the file.
    fn call_metadata(&self, file: &Self::Opened) -> io::Result<Metadata>
        ensures tells { tells file.now result };
}

impl<R: Files> Disk for R {
    type Opened = R::File;

    ghost opens = { λ _ _. Unit {0} };

    ghost tells = { λ _ _. Unit {0} };

    fn call_open(&self, name: &str) -> io::Result<R::File> {
        File::open(self, name)
    }

    fn call_metadata(&self, file: &R::File) -> io::Result<Metadata> {
        file.metadata()
    }
}
