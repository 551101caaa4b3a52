//! Uploads, piece by piece.
use crate::words::{
    bytes_of, number_of, show_bytes, show_fault, show_line, show_number, small_of, split,
};
use std::alloc::Global;
use std::io::Print;
use upload_stage::{Stage, StageFault};

/// Writes whether a step was done.
fn show_done<R: Print>(rt: &R, done: Result<(), StageFault>) {
    match done {
        Ok(()) => show_line(rt, " done"),
        Err(fault) => show_fault(rt, &fault),
    }
}

/// OFFSET:BYTES
fn piece<R: Print>(rt: &R, alloc: Global, stage: &mut Stage, rest: &str) {
    let (offset, digits) = split(rest, ':');
    let done = stage.piece(number_of(offset), &bytes_of(alloc, digits));
    show_done(rt, done);
}

/// So many sevens.
fn sevens_of(alloc: Global, count: usize) -> Vec<u8> {
    vec![in alloc; 7u8; count].unwrap_or(Vec::new(alloc))
}

/// FROM:COUNT, a piece of sevens.
fn sevens<R: Print>(rt: &R, alloc: Global, stage: &mut Stage, rest: &str) {
    let (from, count) = split(rest, ':');
    let done = stage.piece(number_of(from), &sevens_of(alloc, small_of(count) as usize));
    show_done(rt, done);
}

/// The SHA-256 of 64 digits.
fn digest_of(digits: &str) -> [u8; 32] {
    let mut digest = [0u8; 32];
    let _ = hex::decode_to_slice(digits, &mut digest);
    digest
}

/// DIGEST: the bytes of the upload, or why it isn't ended; where the digest differs, that of the bytes.
fn finish<R: Print>(rt: &R, stage: &mut Stage, digits: &str) {
    match stage.finish(&digest_of(digits)) {
        Ok(bytes) => show_bytes(rt, &bytes),
        Err(StageFault::DigestDiffers { got }) => show_bytes(rt, &got),
        Err(fault) => show_fault(rt, &fault),
    }
}

/// Of so many calls, how many say that no byte was received at a place.
fn count_missing(stage: &mut Stage, at: u64, times: u32) -> u64 {
    let mut count = 0u64;
    for _ in 0..times {
        if stage.finish(&[0; 32]).err() == Some(StageFault::Missing { at }) {
            count = count.saturating_add(1);
        }
    }
    count
}

/// AT:TIMES
fn missing<R: Print>(rt: &R, stage: &mut Stage, rest: &str) {
    let (at, times) = split(rest, ':');
    show_number(rt, count_missing(stage, number_of(at), small_of(times)));
}

/// Takes a step.
fn take<R: Print>(rt: &R, alloc: Global, stage: &mut Stage, step: &str) {
    let (call, rest) = split(step, ':');
    match call {
        "begin" => show_done(rt, stage.begin(alloc, number_of(rest))),
        "piece" => piece(rt, alloc, stage, rest),
        "sevens" => sevens(rt, alloc, stage, rest),
        "finish" => finish(rt, stage, rest),
        _ => missing(rt, stage, rest),
    }
}

/// STEP ..: what each step of an upload answers: `begin:LEN`, `piece:OFFSET:BYTES`, `sevens:OFFSET:COUNT` for a piece of
/// sevens, `finish:DIGEST`, and `missing:AT:TIMES` for how often of so many calls the end is refused since no byte is at a
/// place.
pub(crate) fn stage<R: Print>(rt: &R, alloc: Global, row: &str) {
    let mut stage = Stage::new();
    for step in row.split_whitespace() {
        take(rt, alloc, &mut stage, step);
    }
}
