//! Rows of `markup`.

use crate::words::show;
use markup::append_escaped;
use std::alloc::Global;
use std::io::Print;

/// The bytes as they stand in a text of XML.
fn escaped(alloc: Global, digits: &str) -> Option<String> {
    let bytes = hex::decode(alloc, digits).ok()?;
    let mut text = Vec::new(alloc);
    append_escaped(&mut text, bytes.as_slice()).ok()?;
    String::from_utf8(text).ok()
}

/// HEX: bytes as they stand in a text of XML.
pub(crate) fn escape<R: Print>(rt: &R, alloc: Global, rest: &str) {
    if let Some(text) = escaped(alloc, rest) {
        show(rt, " ");
        show(rt, text.as_str());
    }
}
