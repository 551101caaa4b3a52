//! The real files, and standard streams and connections over a stream that goes by a script.
use crate::links::drive;
use crate::shelves::show_refusal;
use crate::streams::{reads, three, writes};
use crate::words::{show_number, show_word, small_of, split};
use cov_base::Shelf;
use cov_net::{FileShelf, StdSink, StdSource, TcpLink};
use sha2::{Digest, Sha256};
use std::alloc::Global;
use std::io;
use std::io::{ErrorKind, Print, Read, Write};
use std::rt::Files;

/// A stream that goes by its script, a letter a call, and then ends: a digit takes or hands over at most that many bytes, `i`
/// is interrupted, and `b` fails.
#[derive(Drop)]
struct Scripted<'a> {
    script: &'a [u8],
    bytes: &'a [u8],
}

impl Scripted<'_> {
    fn step(&mut self, room: usize) -> io::Result<usize> {
        let [first, rest @ ..] = self.script else {
            return Ok(0);
        };
        self.script = rest;
        match *first {
            b'i' => Err(io::Error::from(ErrorKind::Interrupted)),
            b'b' => Err(io::Error::from(ErrorKind::BrokenPipe)),
            digit => Ok(usize::from(digit.saturating_sub(b'0')).min(room)),
        }
    }
}

impl Write for Scripted<'_> {
    fn write(&mut self, bytes: &[u8]) -> io::Result<usize> {
        let count = self.step(bytes.len())?;
        Ok(count.min(bytes.len()))
    }

    fn flush(&mut self) -> io::Result<()> {
        Ok(())
    }
}

impl Read for Scripted<'_> {
    fn read(&mut self, into: &mut [u8]) -> io::Result<usize> {
        let count = self.step(into.len())?;
        let count = count.min(self.bytes.len()).min(into.len());
        into[..count].copy_from_slice(&self.bytes[..count]);
        self.bytes = &self.bytes[count..];
        Ok(count)
    }
}

/// CALL SCRIPT TEXT: one read of the text (`in`) or one write of it (`out`) on a stream that goes by the script; else goes by
/// the plan CALL on a connection over it.
pub(crate) fn script<R: Print>(rt: &R, row: &str) {
    let (call, script, text) = three(row);
    let bytes = text.as_bytes();
    let script = script.as_bytes();
    let stream = Scripted { script, bytes };
    match call {
        "in" => reads(rt, &mut StdSource::new(stream), 1),
        "out" => writes(rt, &mut StdSink::new(stream), bytes, 1),
        plan => drive(rt, &mut TcpLink::new(stream), plan),
    }
}

/// Writes how many bytes a file has, and their SHA-256.
fn show_digest<R: Print>(rt: &R, alloc: Global, bytes: &[u8]) {
    show_number(rt, bytes.len() as i128);
    if let Ok(digest) = hex::encode(alloc, Sha256::digest(bytes)) {
        show_word(rt, digest.as_str());
    }
}

/// MOST NAME: loads a file of so many bytes at most.
pub(crate) fn file<R: Print + Files>(rt: &R, alloc: Global, row: &str) {
    let (most, name) = split(row, ' ');
    match FileShelf::new(rt).load(alloc, name, small_of(most)) {
        Ok(bytes) => show_digest(rt, alloc, &bytes),
        Err(refusal) => show_refusal(rt, refusal),
    }
}
