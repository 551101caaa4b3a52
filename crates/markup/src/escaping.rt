//! Bytes as they stand in a text or in the value of an attribute.
ghost use Rattle.std.specs.Prelude.{◌≡◌, ◌++◌, false, OnOk};
ghost use Rattle.markup.specs.Escaping.{character as character_meant, escape, escape_byte, is_plain as is_plain_meant};

use appending::{append, append_number};
use cov_ground::Memory;

/// Whether a byte stands for itself.
#[inline]
fn is_plain(byte: u8) -> bool
    ensures { result ≡ is_plain_meant byte }
{
    byte >= 32
        && byte < 127
        && !(byte == b'<' || byte == b'>' || byte == b'&' || byte == b'"' || byte == b'\'')
}

/// The number of the character that stands for a byte.
fn character(byte: u8) -> u64
    ensures { result ≡ character_meant byte }
{
    if byte < 32 && !(byte == b'\t' || byte == b'\n' || byte == b'\r') {
        9216 + u64::from(byte)
    } else {
        u64::from(byte)
    }
}

/// The reference to the character of a byte that doesn't stand for itself.
#[tactic(auto, unfolding(crate::specs::Escaping::escape_byte))]
#[inline(never)]
fn append_reference(text: &mut Vec<u8>, byte: u8) -> Result<(), Memory>
    requires { is_plain_meant byte ≡ false }
    ensures { OnOk result (text.new.items ≡ text.old.items ++ escape_byte byte) }
{
    match byte {
        b'<' => append(text, b"&lt;"),
        b'>' => append(text, b"&gt;"),
        b'&' => append(text, b"&amp;"),
        b'"' => append(text, b"&quot;"),
        b'\'' => append(text, b"&#39;"),
        _ => {
            append(text, b"&#")?;
            append_number(text, character(byte))?;
            append(text, b";")
        }
    }
}

/// Adds a byte.
#[tactic(auto, unfolding(crate::specs::Escaping::escape_byte))]
#[inline(always)]
fn append_byte(text: &mut Vec<u8>, byte: u8) -> Result<(), Memory>
    ensures { OnOk result (text.new.items ≡ text.old.items ++ escape_byte byte) }
{
    if is_plain(byte) {
        text.push(byte)?;
        return Ok(());
    }
    append_reference(text, byte)
}

/// Adds bytes to a text, so that they can be read back and no byte of them is one of markup.
pub fn append_escaped(text: &mut Vec<u8>, bytes: &[u8]) -> Result<(), Memory>
    ensures { OnOk result (text.new.items ≡ text.old.items ++ escape bytes.now) }
{
    for byte in bytes {
        append_byte(text, *byte)?;
    }
    Ok(())
}
