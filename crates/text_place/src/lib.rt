//! Street: program.
//!
//! Texts for a person: help, and hints on faults by their line, with where a byte of a text stands as editors say it; and
//! what a file is, by its first bytes.
#![tactic(auto)]

mod help;
mod hint;
mod kinds;
mod pages;

ghost use Rattle.std.specs.Prelude.{◌≡◌, ◌+◌, ◌≤◌, ◌<◌, ◌^◌, length};
ghost use Rattle.text_place.specs.Places.{IsLine, IsLineEnd};

pub use help::{Command, HELP, Topic, VERSION, text_of, topic_of};
pub use hint::{Fault, place_hint};
pub use kinds::{FileKind, kind_of};

/// A line of a text: its number from 1, and the place of its first byte.
#[derive(Clone, Copy, PartialEq, Eq)]
pub struct Line {
    pub number: u32,
    pub start: usize,
}

/// The line of a place of a text, which may be the text's end.
pub fn line_at(text: &[u8], at: usize) -> Line
    requires within { at ≤ length text.now }
    requires short { length text.now + 1 < 2 ^ 32 }
    ensures { IsLine text.now at result.number result.start }
{
    let mut line = Line {
        number: 1,
        start: 0,
    };
    for i in 0..at {
        if text[i] == b'\n' {
            line = Line {
                number: line.number + 1,
                start: i + 1,
            };
        }
    }
    line
}

/// The end of the line of a place: that of the newline behind it, or of the text.
pub fn line_end(text: &[u8], at: usize) -> usize
    requires { at ≤ length text.now }
    ensures { IsLineEnd text.now at result }
{
    let mut end = at;
    while end < text.len() && text[end] != b'\n' {
        end += 1;
    }
    end
}
