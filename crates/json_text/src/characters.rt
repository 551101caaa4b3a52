//! Bytes as the characters of their numbers.
ghost use Rattle.std.specs.Prelude.{◌≡◌, string_bytes, IfOk, IfSome};
ghost use Rattle.std.specs.Str.{encode_utf8_all};

use cov_ground::Memory;
use std::alloc::Global;

/// Bytes as a text, where each of them is ASCII.
pub(crate) fn as_text(bytes: &[u8]) -> Option<&str>
    ensures { IfSome result (λ text. text.now ≡ encode_utf8_all bytes.now) }
{
    if !bytes.is_ascii() {
        return None;
    }
    std::str::from_utf8(bytes).ok()
}

/// The text of the characters whose numbers the bytes are.
pub(crate) fn characters_of(alloc: Global, bytes: &[u8]) -> Result<String, Memory>
    ensures { IfOk result (λ text. string_bytes text ≡ encode_utf8_all bytes.now) }
{
    let mut text = String::new(alloc);
    for byte in bytes {
        text.push(char::from(*byte))?;
    }
    Ok(text)
}
