//! Reading a waivers file.
ghost use Rattle.std.specs.Prelude.{◌≡◌, ◌+◌, ◌≤◌, length, Ok, IfOk, IfErr};
ghost use Rattle.std.specs.List.{position_or_len};
ghost use Rattle.waivers.specs.Reading.{longest_text, longest_line, told as told_meant, without_return as without_meant, read_line as line_meant, added as added_meant, with_line as with_line_meant, is_newline, reading, Reads, Makes, IsFault};

use crate::fault::{FaultKind, LineFault, WaiverFault};
use crate::lines::at_waive;
use crate::waiver::Waiver;
use crate::words::{is_idle, skip};
use std::alloc::Global;

/// Bytes of a text.
pub const LONGEST_TEXT: usize = 1_048_576;

/// Bytes of a line, without its end.
const LONGEST_LINE: usize = 4_096;

/// Waivers of a text.
const MOST_WAIVERS: usize = 65_536;

/// How many bytes stand before the first newline.
fn line_end(bytes: &[u8]) -> usize
    ensures { result ≡ position_or_len is_newline bytes.now }
{
    let mut end = 0;
    for byte in bytes {
        if *byte == b'\n' {
            return end;
        }
        end += 1;
    }
    end
}

/// A line without the carriage return at its end.
#[tactic(auto, unfolding(crate::specs::Reading::without_return))]
fn without_return(line: &[u8]) -> &[u8]
    ensures { result.now ≡ without_meant line.now }
{
    if line.is_empty() || line[line.len() - 1] != b'\r' {
        return line;
    }
    line.split_at(line.len() - 1).0
}

/// What a line is read as that ends at a place of the text.
#[tactic(auto, unfolding(crate::specs::Reading::told))]
fn told(end: usize, read: Result<Waiver, LineFault>) -> Result<Option<Waiver>, WaiverFault>
    requires { end ≤ longest_text }
    ensures { result ≡ told_meant end read }
{
    match read {
        Ok(made) => Ok(Some(made)),
        Err(LineFault::Bad { kind, left }) => Err(WaiverFault::Bad {
            kind,
            at: end.saturating_sub(left) as u32,
        }),
        Err(LineFault::Memory) => Err(WaiverFault::Memory),
    }
}

/// A line that begins at a place: a waiver, or none where it is blank or a comment.
#[tactic(auto, using(crate::proofs::Found::told_reads), unfolding(crate::specs::Reading::read_line))]
fn read_line(alloc: Global, at: usize, line: &[u8]) -> Result<Option<Waiver>, WaiverFault>
    requires { at + length line.now ≤ longest_text }
    ensures { Reads result (line_meant at line.now) }
{
    if line.len() > LONGEST_LINE {
        return Err(WaiverFault::Bad {
            kind: FaultKind::LineTooLong,
            at: (at + LONGEST_LINE) as u32,
        });
    }
    let rest = skip(line);
    if is_idle(rest) {
        return Ok(None);
    }
    told(at + line.len(), at_waive(alloc, rest))
}

/// Adds what a line is that begins at a place.
#[tactic(auto, unfolding(crate::specs::Reading::added))]
fn add(waivers: &mut Vec<Waiver>, at: usize, found: Option<Waiver>) -> Result<(), WaiverFault>
    requires { at ≤ longest_text }
    ensures { Makes result waivers.new.items (added_meant at waivers.old.items found) }
{
    let Some(made) = found else {
        return Ok(());
    };
    if waivers.len() >= MOST_WAIVERS {
        return Err(WaiverFault::Bad {
            kind: FaultKind::TooMany,
            at: at as u32,
        });
    }
    match waivers.push(made) {
        Ok(()) => Ok(()),
        Err(_) => Err(WaiverFault::Memory),
    }
}

/// Adds what a line is that begins at a place.
#[tactic(auto, using(crate::proofs::Found::without_short), unfolding(crate::specs::Reading::with_line))]
fn add_line(
    alloc: Global,
    waivers: &mut Vec<Waiver>,
    at: usize,
    line: &[u8],
) -> Result<(), WaiverFault>
    requires { at + length line.now ≤ longest_text }
    ensures { Makes result waivers.new.items (with_line_meant at waivers.old.items line.now) }
{
    let found = read_line(alloc, at, without_return(line))?;
    add(waivers, at, found)
}

/// The waivers of a text, in order. Each stands on a line of its own:
///
/// ```text
/// waive PATTERN "REASON" [by NAME] [on YYYY-MM-DD]
/// ```
///
/// with spaces and tabs between its words. A line that is blank or begins with `#` is passed over; lines end with LF or
/// CRLF, the last one also with the text. A text has at most 1,048,576 bytes, a line 4,096, and 65,536 waivers stand in
/// a text at most. The first fault is told, or want of memory.
#[tactic(auto, using(crate::proofs::Found::line_steps), unfolding(crate::specs::Reading::reading))]
pub fn read_waivers(alloc: Global, text: &[u8]) -> Result<Vec<Waiver>, WaiverFault>
    ensures waivers { IfOk result (λ waivers. reading text.now ≡ Ok waivers.items) }
    ensures fault { IfErr result (λ fault. IsFault fault (reading text.now)) }
{
    if text.len() > LONGEST_TEXT {
        return Err(WaiverFault::Bad {
            kind: FaultKind::TextTooLong,
            at: LONGEST_TEXT as u32,
        });
    }
    let mut waivers = Vec::new(alloc);
    let mut at = 0;
    while at <= text.len() {
        let rest = text.split_at(at).1;
        let line = rest.split_at(line_end(rest)).0;
        add_line(alloc, &mut waivers, at, line)?;
        at += line.len() + 1;
    }
    Ok(waivers)
}
