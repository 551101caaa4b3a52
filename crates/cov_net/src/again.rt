//! Each call on the outside, made again where a signal interrupts it.
ghost use Rattle.std.specs.Prelude.{◌≢◌, IfErr};
ghost use Rattle.std.specs.IoError.{error_kind};
ghost use Rattle.std.specs.Io.{ReadsAtMost, WritesAtMost};
ghost use Rattle.std.specs.Io.KnownBytes.{ReadConsumes, WriteAppends};
ghost use Rattle.cov_base.specs.Amounts.{WritesSome};
ghost use Rattle.cov_net.specs.Calls.{AcceptsBy, Answers, Gives, IsGivenUp, IsInterrupted, ReadsBy, WritesBy};

use crate::calls::{AcceptCall, Disk, ReadCall, WriteCall};
use cov_base::Failed;
use std::fs::Metadata;
use std::io;
use std::io::ErrorKind;

/// As the reader's `read`.
pub(crate) fn read_again<R: ReadCall>(reader: &mut R, into: &mut [u8]) -> io::Result<usize>
    ensures bound { ReadsAtMost result into.new }
    ensures bytes { ReadConsumes (R.remaining reader.old) (R.remaining reader.new) result into.new }
    ensures answer { Answers IsInterrupted R.reads (reader.old, into.old) result (reader.new, into.new) }
    ensures retried { IfErr result (λ e. error_kind e ≢ ErrorKind.Interrupted) }
{
    for tried in 0..u64::MAX {
        match reader.call_read(into) {
            Ok(count) => return Ok(count),
            Err(error) if error.kind() == ErrorKind::Interrupted => {}
            Err(error) => return Err(error),
        }
    }
    Err(io::Error::from(ErrorKind::TimedOut))
}

/// As the writer's `write`.
pub(crate) fn write_again<W: WriteCall>(writer: &mut W, bytes: &[u8]) -> io::Result<usize>
    ensures bound { WritesAtMost result bytes.now }
    ensures bytes { WriteAppends (W.contents writer.old) (W.contents writer.new) result bytes.now }
    ensures answer { Answers IsInterrupted (W.writes bytes.now) writer.old result writer.new }
    ensures retried { IfErr result (λ e. error_kind e ≢ ErrorKind.Interrupted) }
{
    for tried in 0..u64::MAX {
        match writer.call_write(bytes) {
            Ok(count) => return Ok(count),
            Err(error) if error.kind() == ErrorKind::Interrupted => {}
            Err(error) => return Err(error),
        }
    }
    Err(io::Error::from(ErrorKind::TimedOut))
}

/// As the reader's `read`, telling of an error only that there was one.
pub(crate) fn read_told<R: ReadCall>(reader: &mut R, into: &mut [u8]) -> Result<usize, Failed>
    ensures bound { ReadsAtMost result into.new }
    ensures bytes { ReadConsumes (R.remaining reader.old) (R.remaining reader.new) result into.new }
    ensures answer { ReadsBy R.reads (reader.old, into.old) result (reader.new, into.new) }
{
    match read_again(reader, into) {
        Ok(count) => Ok(count),
        Err(_) => Err(Failed),
    }
}

/// As the writer's `write`, telling of an error only that there was one. A write that takes no byte is a failure.
pub(crate) fn write_told<W: WriteCall>(writer: &mut W, bytes: &[u8]) -> Result<usize, Failed>
    ensures bound { WritesSome result bytes.now }
    ensures bytes { WriteAppends (W.contents writer.old) (W.contents writer.new) result bytes.now }
    ensures answer { WritesBy (W.writes bytes.now) writer.old result writer.new }
{
    match write_again(writer, bytes) {
        Ok(0) => Err(Failed),
        Ok(count) => Ok(count),
        Err(_) => Err(Failed),
    }
}

/// The file of that name, to be read.
pub(crate) fn open_again<D: Disk>(disk: &D, name: &str) -> io::Result<D::Opened>
    ensures answer { Gives IsInterrupted (D.opens name.now) result }
{
    for tried in 0..u64::MAX {
        match disk.call_open(name) {
            Ok(file) => return Ok(file),
            Err(error) if error.kind() == ErrorKind::Interrupted => {}
            Err(error) => return Err(error),
        }
    }
    Err(io::Error::from(ErrorKind::TimedOut))
}

/// What the system says of the file.
pub(crate) fn metadata_again<D: Disk>(disk: &D, file: &D::Opened) -> io::Result<Metadata>
    ensures answer { Gives IsInterrupted (D.tells file.now) result }
{
    for tried in 0..u64::MAX {
        match disk.call_metadata(file) {
            Ok(metadata) => return Ok(metadata),
            Err(error) if error.kind() == ErrorKind::Interrupted => {}
            Err(error) => return Err(error),
        }
    }
    Err(io::Error::from(ErrorKind::TimedOut))
}

/// The next connection. A call whose connection was given up before it was taken is made again too.
pub(crate) fn accept_again<L: AcceptCall>(listener: &L) -> io::Result<L::Stream>
    ensures answer { Gives IsGivenUp L.accepts result }
{
    for tried in 0..u64::MAX {
        match listener.call_accept() {
            Ok(stream) => return Ok(stream),
            Err(error) if error.kind() == ErrorKind::Interrupted => {}
            Err(error) if error.kind() == ErrorKind::ConnectionAborted => {}
            Err(error) => return Err(error),
        }
    }
    Err(io::Error::from(ErrorKind::TimedOut))
}

/// The same, telling of an error only that there was one.
pub(crate) fn accept_told<L: AcceptCall>(listener: &L) -> Result<L::Stream, Failed>
    ensures answer { AcceptsBy L.accepts (λ stream. stream) result }
{
    match accept_again(listener) {
        Ok(stream) => Ok(stream),
        Err(_) => Err(Failed),
    }
}
