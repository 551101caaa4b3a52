//! Hints on faults of texts.
use crate::words::{show, split};
use std::alloc::Global;
use std::io::Print;
use text_place::{Fault, place_hint};

/// The most bytes of a text.
const MOST: usize = 1000;

/// The hint on a fault at this place of a text in hexadecimal.
fn hint_of(alloc: Global, at: u32, digits: &str) -> Option<String> {
    let text = hex::decode(alloc, digits).ok()?;
    if text.len() > MOST {
        return None;
    }
    let fault = Fault {
        kind: "Syntax",
        at,
        meaning: "why",
    };
    place_hint(alloc, "d", &text, fault).ok()
}

/// Writes a text with `/` for each newline.
fn show_lines<R: Print>(rt: &R, text: &str) {
    for (place, line) in text.split('\n').enumerate() {
        show(rt, if place == 0 { " " } else { "/" });
        show(rt, line);
    }
}

/// AT TEXT: the hint on a fault at a place of a text in hexadecimal, with `/` for each newline.
pub(crate) fn hint<R: Print>(rt: &R, alloc: Global, row: &str) {
    let (at, digits) = split(row, ' ');
    if let Some(hint) = hint_of(alloc, at.parse().unwrap_or(0), digits) {
        show_lines(rt, hint.as_str());
    }
}
