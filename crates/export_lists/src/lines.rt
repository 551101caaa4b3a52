//! The lines of bins and of holes.
ghost use Rattle.std.specs.Prelude.{◌≡◌, ◌++◌, OnOk};
ghost use Rattle.export_lists.specs.Lines as lines;

use appending::{append, append_number};
use bin_words::kind_word;
use cov_base::Memory;
use design_data::BinKind;
use store_views::{BinState, state_word};

pub(crate) fn append_bin(
    text: &mut Vec<u8>,
    number: u32,
    kind: BinKind,
    count: u64,
    state: BinState,
    path: &[u8],
) -> Result<(), Memory>
    ensures { OnOk result (text.new.items ≡ text.old.items ++ lines.bin_line number kind count state path.now) }
{
    append(text, b"bin ")?;
    append_number(text, number as u64)?;
    append(text, b" ")?;
    append(text, kind_word(kind).as_bytes())?;
    append(text, b" ")?;
    append_number(text, count)?;
    append_standing(text, state, path)
}

/// How a bin stands, and its path.
fn append_standing(text: &mut Vec<u8>, state: BinState, path: &[u8]) -> Result<(), Memory>
    ensures { OnOk result (text.new.items ≡ text.old.items ++ lines.standing state path.now) }
{
    append(text, b" ")?;
    append(text, state_word(state).as_bytes())?;
    append(text, b" ")?;
    append(text, path)?;
    append(text, b"\n")
}

pub(crate) fn append_amounts(text: &mut Vec<u8>, holes: u64, live: u64) -> Result<(), Memory>
    ensures { OnOk result (text.new.items ≡ text.old.items ++ lines.holes_line holes live) }
{
    append(text, b"holes ")?;
    append_number(text, holes)?;
    append(text, b" of ")?;
    append_number(text, live)?;
    append(text, b"\n")
}

pub(crate) fn append_item(
    text: &mut Vec<u8>,
    path: &[u8],
    holes: u64,
    live: u64,
) -> Result<(), Memory>
    ensures { OnOk result (text.new.items ≡ text.old.items ++ lines.item_line path.now holes live) }
{
    append(text, b"item ")?;
    append(text, path)?;
    append(text, b" ")?;
    append_number(text, holes)?;
    append(text, b"/")?;
    append_number(text, live)?;
    append(text, b"\n")
}

pub(crate) fn append_all(
    text: &mut Vec<u8>,
    path: &[u8],
    point: &[u8],
    member: &[u8],
) -> Result<(), Memory>
    ensures { OnOk result (text.new.items ≡ text.old.items ++ lines.all_line path.now point.now member.now) }
{
    append(text, b"all ")?;
    append(text, path)?;
    append(text, b".")?;
    append(text, point)?;
    append(text, b".")?;
    append(text, member)?;
    append(text, b"\n")
}

pub(crate) fn append_hole(
    text: &mut Vec<u8>,
    count: u64,
    at_least: u32,
    path: &[u8],
) -> Result<(), Memory>
    ensures { OnOk result (text.new.items ≡ text.old.items ++ lines.hole_line count at_least path.now) }
{
    append(text, b"hole ")?;
    append_number(text, count)?;
    append(text, b"/")?;
    append_number(text, at_least as u64)?;
    append(text, b" ")?;
    append(text, path)?;
    append(text, b"\n")
}
