//! The parts of lines, and the lines of refusals.
ghost use Rattle.std.specs.Prelude.{◌≡◌, IfOk, OnOk, ◌++◌};
ghost use Rattle.covd_commands.specs.Lines.{number_line, bad_words_text, design_refused_text, record_refused_text, dump_refused_text, cannot_read_text, too_long_text};

use appending::{append, append_number};
use cov_base::Memory;
use std::alloc::Global;

// A word and a number.
pub(crate) fn append_count(text: &mut Vec<u8>, word: &str, number: usize) -> Result<(), Memory>
    ensures { OnOk result (text.new.items ≡ text.old.items ++ number_line word.now number) }
{
    append(text, word.as_bytes())?;
    append(text, b" ")?;
    append_number(text, number as u64)?;
    append(text, b"\n")
}

/// The line of words that are no command.
pub fn bad_words(alloc: Global) -> Result<Vec<u8>, Memory>
    ensures { IfOk result (λ text. text.items ≡ bad_words_text) }
{
    Ok(Vec::from_slice(alloc, b"bad words\n")?)
}

pub(crate) fn design_refused(alloc: Global, kind: &str, at: u32) -> Result<Vec<u8>, Memory>
    ensures { IfOk result (λ text. text.items ≡ design_refused_text kind.now at) }
{
    let mut text = Vec::new(alloc);
    append(&mut text, b"design refused ")?;
    append(&mut text, kind.as_bytes())?;
    append(&mut text, b" at ")?;
    append_number(&mut text, at as u64)?;
    append(&mut text, b"\n")?;
    Ok(text)
}

pub(crate) fn record_refused(
    alloc: Global,
    k: u64,
    kind: &str,
    number: u64,
) -> Result<Vec<u8>, Memory>
    ensures { IfOk result (λ text. text.items ≡ record_refused_text k kind.now number) }
{
    let mut text = Vec::new(alloc);
    append(&mut text, b"record ")?;
    append_number(&mut text, k)?;
    append(&mut text, b" refused ")?;
    append(&mut text, kind.as_bytes())?;
    append(&mut text, b" ")?;
    append_number(&mut text, number)?;
    append(&mut text, b"\n")?;
    Ok(text)
}

pub(crate) fn dump_refused(alloc: Global, kind: &str, number: u64) -> Result<Vec<u8>, Memory>
    ensures { IfOk result (λ text. text.items ≡ dump_refused_text kind.now number) }
{
    let mut text = Vec::new(alloc);
    append(&mut text, b"dump refused ")?;
    append(&mut text, kind.as_bytes())?;
    append(&mut text, b" ")?;
    append_number(&mut text, number)?;
    append(&mut text, b"\n")?;
    Ok(text)
}

pub(crate) fn cannot_read(alloc: Global, name: &str) -> Result<Vec<u8>, Memory>
    ensures { IfOk result (λ text. text.items ≡ cannot_read_text name.now) }
{
    let mut text = Vec::new(alloc);
    append(&mut text, b"cannot read ")?;
    append(&mut text, name.as_bytes())?;
    append(&mut text, b"\n")?;
    Ok(text)
}

pub(crate) fn too_long(alloc: Global, name: &str, size: u64) -> Result<Vec<u8>, Memory>
    ensures { IfOk result (λ text. text.items ≡ too_long_text name.now size) }
{
    let mut text = Vec::new(alloc);
    append(&mut text, b"too long ")?;
    append(&mut text, name.as_bytes())?;
    append(&mut text, b" ")?;
    append_number(&mut text, size)?;
    append(&mut text, b"\n")?;
    Ok(text)
}
