//! Bytes written in hexadecimal.
use crate::words::say;
use sha2::{Digest, Sha256};
use std::alloc::Global;
use std::io::Print;

/// The value of a digit, or nothing.
fn digit(byte: u8) -> Option<u8> {
    match byte {
        b'0'..=b'9' => Some(byte - b'0'),
        b'A'..=b'F' => Some(byte - b'A' + 10),
        b'a'..=b'f' => Some(byte - b'a' + 10),
        _ => None,
    }
}

/// Adds the byte of two digits: the digit that waits for another.
fn add_digit(bytes: &mut Vec<u8>, high: Option<u8>, low: Option<u8>) -> Option<u8> {
    match (high, low) {
        (Some(high), Some(low)) => {
            let _ = bytes.push(high << 4 | low);
            None
        }
        _ => low,
    }
}

/// The bytes of pairs of digits; what is no digit stands between pairs.
pub(crate) fn bytes_of(alloc: Global, text: &str) -> Vec<u8> {
    let mut bytes = Vec::new(alloc);
    let mut high = None;
    for byte in text.bytes() {
        high = add_digit(&mut bytes, high, digit(byte));
    }
    bytes
}

/// Writes bytes as pairs of digits, and a newline.
pub(crate) fn show_bytes<R: Print>(rt: &R, alloc: Global, bytes: &[u8]) {
    if let Ok(digits) = hex::encode(alloc, bytes) {
        say(rt, digits.as_str());
    }
}

/// Writes how many bytes there are, and their SHA-256.
pub(crate) fn show_digest<R: Print>(rt: &R, alloc: Global, bytes: &[u8]) {
    let _ = print!(rt; "{} bytes, SHA-256 ", bytes.len());
    show_bytes(rt, alloc, &Sha256::digest(bytes));
}
