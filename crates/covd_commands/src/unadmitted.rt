//! The lines of records that aren't admitted.
ghost use Rattle.std.specs.Prelude.{◌≡◌, ◌++◌, ◌∷◌, [], ◌/◌, ◌%◌, codes, slice_index, ◌<◌, IfOk, OnOk};
ghost use Rattle.covd_commands.specs.Unadmitted.{hexadecimal, taken_line, full_line, which_word as word_meant};

use appending::{append, append_number};
use cov_base::Memory;
use std::alloc::Global;
use ucis_model::Which;

/// A hexadecimal digit.
fn digit(number: u8) -> u8
    requires { number < 16 }
    ensures { result ≡ slice_index (codes "0123456789abcdef") number }
{
    b"0123456789abcdef"[number as usize]
}

/// A byte in two hexadecimal digits.
fn append_byte(text: &mut Vec<u8>, byte: u8) -> Result<(), Memory>
    ensures { OnOk result (text.new.items ≡ text.old.items ++ slice_index (codes "0123456789abcdef") (byte / 16) ∷ slice_index (codes "0123456789abcdef") (byte % 16) ∷ []) }
{
    append(text, &[digit(byte / 16), digit(byte % 16)])
}

/// Bytes in hexadecimal digits.
fn append_hexadecimal(text: &mut Vec<u8>, bytes: &[u8]) -> Result<(), Memory>
    ensures { OnOk result (text.new.items ≡ text.old.items ++ hexadecimal bytes.now) }
{
    for byte in bytes {
        append_byte(text, *byte)?;
    }
    Ok(())
}

/// The line of a record whose id is taken.
pub fn id_taken(alloc: Global, k: u64, digest: &[u8]) -> Result<Vec<u8>, Memory>
    ensures { IfOk result (λ text. text.items ≡ taken_line k digest.now) }
{
    let mut text = Vec::new(alloc);
    append(&mut text, b"record ")?;
    append_number(&mut text, k)?;
    append(&mut text, b" not admitted IdTaken ")?;
    append_hexadecimal(&mut text, digest)?;
    append(&mut text, b"\n")?;
    Ok(text)
}

/// The line of a record that would pass a limit.
pub fn full(alloc: Global, k: u64, which: &str, have: u64, want: u64) -> Result<Vec<u8>, Memory>
    ensures { IfOk result (λ text. text.items ≡ full_line k which.now have want) }
{
    let mut text = Vec::new(alloc);
    append(&mut text, b"record ")?;
    append_number(&mut text, k)?;
    append(&mut text, b" not admitted Full ")?;
    append(&mut text, which.as_bytes())?;
    append(&mut text, b" ")?;
    append_number(&mut text, have)?;
    append(&mut text, b" ")?;
    append_number(&mut text, want)?;
    append(&mut text, b"\n")?;
    Ok(text)
}

/// The word of a limit of a store.
pub fn which_word(which: Which) -> &'static str
    ensures { result.now ≡ word_meant which }
{
    match which {
        Which::Tests => "tests",
        Which::Bytes => "bytes",
        Which::Entries => "entries",
        Which::History => "history",
    }
}
