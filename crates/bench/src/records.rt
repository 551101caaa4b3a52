//! Records of a file: `records FILE READS WRITES` decodes the file and encodes its record that many times, and prints how
//! many events it has.

use bench_values::{Found, bytes_at, number_at};
use record_codec::{Record, decode, encode};
use std::alloc::Global;
use std::rt::Files;

/// The most bytes that are decoded.
const MOST: usize = 8_388_608;

/// Encodes a record so many times: how many events it has.
fn written(alloc: Global, record: &Record, writes: u32) -> Option<Found> {
    let mut done = true;
    for _ in 0..writes {
        done &= encode(alloc, record).is_ok();
    }
    if done {
        Some(Found::One(record.events.as_slice().len() as u64))
    } else {
        None
    }
}

/// Decodes the bytes, and encodes their record so many times: how many events it has. None where the bytes are no record,
/// or too many.
fn decoded(alloc: Global, bytes: &[u8], writes: u32) -> Option<Found> {
    if bytes.len() > MOST {
        return None;
    }
    match decode(alloc, bytes) {
        Ok(record) => written(alloc, &record, writes),
        Err(_) => None,
    }
}

/// The same, where the bytes are decoded so many times before.
fn read(alloc: Global, bytes: &[u8], reads: u32, writes: u32) -> Option<Found> {
    let mut done = true;
    for _ in 0..reads {
        done &= decoded(alloc, bytes, 0).is_some();
    }
    if done {
        decoded(alloc, bytes, writes)
    } else {
        None
    }
}

pub(crate) fn measured<R: Files + AllocGlobal>(rt: &R, words: &[String]) -> Option<Found> {
    if let Some(reads) = number_at(words, 1)
        && let Some(writes) = number_at(words, 2)
        && let Some(bytes) = bytes_at(rt, words, 0)
    {
        read(rt.alloc(), &bytes, reads, writes)
    } else {
        None
    }
}
