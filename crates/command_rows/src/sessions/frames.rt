//! What a session is to read.
use crate::words::{bytes_of, copy_of, count_of, number_of, split, take};
use sha2::{Digest, Sha256};
use std::alloc::Global;

/// Adds a frame, whose body begins with a head.
pub(crate) fn add_frame(input: &mut Vec<u8>, head: &[u8], rest: &[u8]) {
    let length = head.len().saturating_add(rest.len());
    let length = u32::try_from(length).unwrap_or(u32::MAX);
    let _ = input.extend_from_slice(&length.to_be_bytes());
    let _ = input.extend_from_slice(head);
    let _ = input.extend_from_slice(rest);
}

/// Adds a piece of an upload that begins at this place.
fn add_piece(input: &mut Vec<u8>, at: u64, bytes: &[u8]) {
    let mut head = [0x03u8; 9];
    head[1..].copy_from_slice(&at.to_be_bytes());
    add_frame(input, &head, bytes);
}

/// Adds an upload: its length, its bytes in one piece, and its digest.
fn add_upload(input: &mut Vec<u8>, bytes: &[u8]) {
    add_frame(input, &[0x02], &(bytes.len() as u64).to_be_bytes());
    add_piece(input, 0, bytes);
    add_frame(input, &[0x04], &Sha256::digest(bytes));
}

/// Adds an id behind its length.
fn add_id(bytes: &mut Vec<u8>, id: &str) {
    let length = u16::try_from(id.len()).unwrap_or(u16::MAX);
    let _ = bytes.extend_from_slice(&length.to_be_bytes());
    let _ = bytes.extend_from_slice(id.as_bytes());
}

/// The id of a number.
fn id_of(alloc: Global, number: u32) -> String {
    format!(in alloc; "t{number}").unwrap_or(String::new(alloc))
}

/// The record of a number, with these bytes before and after its id.
fn record_of(alloc: Global, number: u32, before: &[u8], after: &[u8]) -> Vec<u8> {
    let mut bytes = copy_of(alloc, before);
    add_id(&mut bytes, id_of(alloc, number).as_str());
    let _ = bytes.extend_from_slice(after);
    bytes
}

/// Adds uploads of the records of the numbers from 1 on.
fn add_records(alloc: Global, input: &mut Vec<u8>, count: u32, before: &[u8], after: &[u8]) {
    for number in 0..count {
        add_upload(input, &record_of(alloc, number + 1, before, after));
    }
}

/// COUNT BEFORE AFTER: adds uploads.
pub(crate) fn add_uploads(alloc: Global, input: &mut Vec<u8>, row: &str) {
    let (count, ends) = split(row);
    let (before, after) = split(ends);
    let (before, after) = (bytes_of(alloc, before), bytes_of(alloc, after));
    add_records(alloc, input, count_of(count), &before, &after);
}

/// AT COUNT: adds a piece of zeros.
pub(crate) fn add_zeros(alloc: Global, input: &mut Vec<u8>, row: &str) {
    let (at, count) = split(row);
    if let Ok(zeros) = vec![in alloc; 0u8; count_of(count) as usize] {
        add_piece(input, number_of(at), &zeros);
    }
}

/// COUNT: makes all that is there stand so many times.
pub(crate) fn repeat(alloc: Global, input: &mut Vec<u8>, row: &str) {
    let once = take(alloc, input);
    for _ in 0..count_of(row) {
        let _ = input.extend_from_slice(&once);
    }
}
