//! Runs of bytes of one class.
ghost use Rattle.std.specs.Prelude.{◌≡◌, ◌≤◌, length, codes, slice_index};
ghost use Rattle.cov_lexer.specs.Bytes.{has};
ghost use Rattle.cov_lexer.specs.Operators.{stands};
ghost use Rattle.cov_lexer.specs.Reading.{Runs};

use crate::bytes::Class;

/// The byte at this place, 0 behind the end of the text.
pub(crate) fn byte_at(text: &[u8], at: usize) -> u8
    ensures { result ≡ slice_index text.now at }
{
    if at < text.len() { text[at] } else { 0 }
}

/// Whether these bytes stand at this place.
pub(crate) fn stands(text: &[u8], at: usize, bytes: &[u8]) -> bool
    requires { at ≤ length text.now }
    ensures { result ≡ stands text.now at bytes.now }
{
    text[at..].starts_with(bytes)
}

/// Where the run of bytes of this class ends that begins at `at`: at the first byte of another class, or at the end of the text.
pub(crate) fn run_end(text: &[u8], at: usize, class: Class) -> usize
    requires { at ≤ length text.now }
    ensures { Runs (has class) text.now at result }
{
    let mut end = at;
    while end < text.len() && class.has(text[end]) {
        end += 1;
    }
    end
}
