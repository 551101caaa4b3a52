//! The hint on a fault at a place of a text.
ghost use Rattle.std.specs.Prelude.{◌+◌, ◌<◌, ◌≤◌, ◌^◌, length};

use crate::{line_at, line_end};
use std::alloc::{AllocError, Global};

/// The longest line that is shown, in bytes.
const SHOWN: usize = 160;

/// What is wrong with a text, in a word and in a sentence, and the byte at which it is.
#[derive(Clone, Copy)]
pub struct Fault<'a> {
    pub kind: &'a str,
    pub at: u32,
    pub meaning: &'a str,
}

/// Adds a mark under the byte behind these of its line. Tabs stay tabs, and a letter of several bytes is one blank.
fn add_mark(hint: &mut String, before: &[u8]) -> Result<(), AllocError> {
    for byte in before {
        match *byte {
            b'\t' => hint.push('\t')?,
            0x80..=0xBF => {}
            _ => hint.push(' ')?,
        }
    }
    hint.push_str("^\n")
}

/// Adds the line from `start` to `end`, and a mark under the place, where the line is UTF-8.
fn add_line(
    hint: &mut String,
    text: &[u8],
    start: usize,
    at: usize,
    end: usize,
) -> Result<(), AllocError>
    requires before { start ≤ at }
    requires behind { at ≤ end }
    requires within { end ≤ length text.now }
{
    if let Ok(shown) = str::from_utf8(&text[start..end]) {
        hint.push_str(shown)?;
        hint.push('\n')?;
        add_mark(hint, &text[start..at])?;
    }
    Ok(())
}

/// `design.sv:12:7: Syntax: no design text goes on like this here`, then the line with a mark under the place, where it is
/// not too long and is UTF-8. A place behind the text is its end.
pub fn place_hint(
    alloc: Global,
    name: &str,
    text: &[u8],
    fault: Fault<'_>,
) -> Result<String, AllocError>
    requires { length text.now + 1 < 2 ^ 32 }
{
    let at = (fault.at as usize).min(text.len());
    let line = line_at(text, at);
    let end = line_end(text, at);
    let column = at - line.start + 1;
    let mut hint = format!(in alloc;
        "{name}:{}:{column}: {}: {}\n",
        line.number, fault.kind, fault.meaning
    )?;
    if end - line.start <= SHOWN {
        add_line(&mut hint, text, line.start, at, end)?;
    }
    Ok(hint)
}
