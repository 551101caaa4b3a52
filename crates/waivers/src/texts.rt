//! What a report prints of waivers.
ghost use Rattle.std.specs.Prelude.{◌≡◌, ◌++◌, ◌<◌, ◌^◌, length, OnOk};
ghost use Rattle.waivers.specs.Texts.{reason_part, given_part, tail_part, waived_line, stale_line, waiver_line, waivers_text, kind_word as kind_meant, place_part, refused_line};
ghost use Rattle.waivers.specs.Waived.{waived_among};

use crate::fault::FaultKind;
use crate::nodes::waived_among;
use crate::waiver::Waiver;
use appending::{append, append_number};
use cov_ground::Memory;
use cov_tree::Name;
use std::alloc::Global;

/// The reason between quotes.
fn append_reason(text: &mut Vec<u8>, reason: &[u8]) -> Result<(), Memory>
    ensures { OnOk result (text.new.items ≡ text.old.items ++ reason_part reason.now) }
{
    append(text, b" \"")?;
    append(text, reason)?;
    append(text, b"\"")
}

/// A word and what is given behind it, or nothing.
fn append_given(text: &mut Vec<u8>, word: &str, given: &[u8]) -> Result<(), Memory>
    ensures { OnOk result (text.new.items ≡ text.old.items ++ given_part word.now given.now) }
{
    if given.is_empty() {
        return Ok(());
    }
    append(text, b" ")?;
    append(text, word.as_bytes())?;
    append(text, b" ")?;
    append(text, given)
}

/// By whom and when, and the line's end.
fn append_tail(text: &mut Vec<u8>, waiver: &Waiver) -> Result<(), Memory>
    ensures { OnOk result (text.new.items ≡ text.old.items ++ tail_part waiver.now) }
{
    append_given(text, "by", waiver.by.as_slice())?;
    append_given(text, "on", waiver.on.as_slice())?;
    append(text, b"\n")
}

/// The line of a waiver that so many nodes match.
fn append_waived(text: &mut Vec<u8>, nodes: u64, waiver: &Waiver) -> Result<(), Memory>
    ensures { OnOk result (text.new.items ≡ text.old.items ++ waived_line nodes waiver.now) }
{
    append(text, b"waived ")?;
    append_number(text, nodes)?;
    append(text, b" ")?;
    append(text, waiver.pattern.as_slice())?;
    append_reason(text, waiver.reason.as_slice())?;
    append_tail(text, waiver)
}

/// The line of a waiver that no node matches.
fn append_stale(text: &mut Vec<u8>, waiver: &Waiver) -> Result<(), Memory>
    ensures { OnOk result (text.new.items ≡ text.old.items ++ stale_line waiver.now) }
{
    append(text, b"stale ")?;
    append(text, waiver.pattern.as_slice())?;
    append(text, b"\n")
}

/// Adds the line of a waiver that so many nodes match: `waived N PATTERN "REASON"`, ` by NAME` and ` on DATE` where
/// they are given; `stale PATTERN` where N is 0. The only error is want of memory; the text may then have a part of the
/// line.
pub fn append_waiver(text: &mut Vec<u8>, nodes: u64, waiver: &Waiver) -> Result<(), Memory>
    ensures { OnOk result (text.new.items ≡ text.old.items ++ waiver_line nodes waiver.now) }
{
    if nodes == 0 {
        append_stale(text, waiver)
    } else {
        append_waived(text, nodes, waiver)
    }
}

/// Adds the line of a waiver, by the paths of all nodes.
fn append_found(
    alloc: Global,
    text: &mut Vec<u8>,
    paths: &[Name],
    waiver: &Waiver,
) -> Result<(), Memory>
    requires { length paths.now < 2 ^ 32 }
    ensures { OnOk result (text.new.items ≡ text.old.items
        ++ waiver_line (length (waived_among waiver.now.pattern paths.now)) waiver.now) }
{
    let places = waived_among(alloc, paths, waiver.pattern.as_slice())?;
    append_waiver(text, places.len() as u64, waiver)
}

/// Adds the line of each waiver, in order, by the paths of all nodes (`paths_of`). The only error is want of memory;
/// the text may then have a part of the lines.
pub fn append_waivers(
    alloc: Global,
    text: &mut Vec<u8>,
    paths: &[Name],
    waivers: &[Waiver],
) -> Result<(), Memory>
    requires { length paths.now < 2 ^ 32 }
    ensures { OnOk result (text.new.items ≡ text.old.items ++ waivers_text paths.now waivers.now) }
{
    for waiver in waivers {
        append_found(alloc, text, paths, waiver)?;
    }
    Ok(())
}

/// The word of a kind of fault.
#[tactic(auto, unfolding(crate::specs::Texts::kind_word))]
fn kind_word(kind: FaultKind) -> &'static str
    ensures { result.now ≡ kind_meant kind }
{
    match kind {
        FaultKind::BadLine => "BadLine",
        FaultKind::BadPattern => "BadPattern",
        FaultKind::MatchesRoot => "MatchesRoot",
        FaultKind::BadReason => "BadReason",
        FaultKind::BadName => "BadName",
        FaultKind::BadDate => "BadDate",
        FaultKind::Extra => "Extra",
        FaultKind::LineTooLong => "LineTooLong",
        FaultKind::TooMany => "TooMany",
        FaultKind::TextTooLong => "TextTooLong",
    }
}

/// A place, and the line's end.
fn append_place(text: &mut Vec<u8>, at: u32) -> Result<(), Memory>
    ensures { OnOk result (text.new.items ≡ text.old.items ++ place_part at) }
{
    append(text, b" at ")?;
    append_number(text, u64::from(at))?;
    append(text, b"\n")
}

/// Adds the line of a fault that `read_waivers` told: `waivers refused KIND at N`. The only error is want of memory;
/// the text may then have a part of the line.
pub fn append_refusal(text: &mut Vec<u8>, kind: FaultKind, at: u32) -> Result<(), Memory>
    ensures { OnOk result (text.new.items ≡ text.old.items ++ refused_line kind at) }
{
    append(text, b"waivers refused ")?;
    append(text, kind_word(kind).as_bytes())?;
    append_place(text, at)
}
