//! Sources and sinks in memory, through their traits' bounds.
use crate::words::{bytes_of, calls_of, piece_of, show, show_bytes, show_contents, split};
use cov_base::{Failed, MemSink, MemSource, Sink, Source, SureSink, SureSource};
use std::alloc::Global;
use std::io::Print;

/// Writes what one read with room for three bytes brings: the bytes, the end as `.`, a failure as `!`.
fn read<R: Print, S: Source>(rt: &R, source: &mut S) {
    let mut room = [0u8; 3];
    match source.read(&mut room) {
        Ok(0) => show(rt, "."),
        Ok(count) => show_bytes(rt, &room[..count]),
        Err(Failed) => show(rt, "!"),
    }
}

/// Writes what that many reads bring, each behind a blank.
pub(crate) fn reads<R: Print, S: Source>(rt: &R, source: &mut S, calls: u8) {
    for _ in 0..calls {
        show(rt, " ");
        read(rt, source);
    }
}

/// Writes what one write of the text does, the bytes or a failure as `!`, and answers the rest of the text.
fn write<'a, R: Print, S: Sink>(rt: &R, sink: &mut S, text: &'a [u8]) -> &'a [u8] {
    if text.is_empty() {
        show(rt, ".");
        return text;
    }
    match sink.write(text) {
        Ok(count) => {
            show_bytes(rt, &text[..count]);
            &text[count..]
        }
        Err(Failed) => {
            show(rt, "!");
            text
        }
    }
}

/// Writes what that many writes of the rest of the text do, each behind a blank; `.` where no rest is left.
pub(crate) fn writes<R: Print, S: Sink>(rt: &R, sink: &mut S, text: &[u8], calls: u8) {
    let mut rest = text;
    for _ in 0..calls {
        show(rt, " ");
        rest = write(rt, sink, rest);
    }
}

/// The words before and behind the first blanks: three of them.
pub(crate) fn three(row: &str) -> (&str, &str, &str) {
    let (first, rest) = split(row, ' ');
    let (second, third) = split(rest, ' ');
    (first, second, third)
}

/// PIECE FAILS TEXT: reads a source that fails at the calls FAILS, or at none where it is `sure`.
pub(crate) fn source<R: Print>(rt: &R, alloc: Global, row: &str) {
    let (piece, fails, text) = three(row);
    let piece = piece_of(piece);
    let contents = bytes_of(alloc, text);
    if fails == "sure" {
        return reads(rt, &mut SureSource::new(contents, piece), 7);
    }
    let failing = calls_of(alloc, fails);
    reads(rt, &mut MemSource::new(contents, piece, failing), 7);
}

fn sure_sink<R: Print>(rt: &R, sink: &mut SureSink, text: &str) {
    writes(rt, sink, text.as_bytes(), 4);
    show_contents(rt, sink.contents());
}

fn planned_sink<R: Print>(rt: &R, sink: &mut MemSink, text: &str) {
    writes(rt, sink, text.as_bytes(), 4);
    show_contents(rt, Some(sink.contents()));
}

/// PIECE FAILS TEXT: writes the text to a sink that fails at the calls FAILS, or at none where it is `sure`, and then what
/// the sink has.
pub(crate) fn sink<R: Print>(rt: &R, alloc: Global, row: &str) {
    let (piece, fails, text) = three(row);
    let piece = piece_of(piece);
    if fails == "sure" {
        return sure_sink(rt, &mut SureSink::new(alloc, piece), text);
    }
    let failing = calls_of(alloc, fails);
    planned_sink(rt, &mut MemSink::new(alloc, piece, failing), text);
}
