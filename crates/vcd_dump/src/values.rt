//! The digits of a change, and the value that they write.
ghost use Rattle.std.specs.Prelude.{◌≡◌};
ghost use Rattle.std.specs.List.{list_all};
ghost use Rattle.vcd_dump.specs.Values.{is_x, is_z, is_digit, are_digits, bit_of, value_of, low_of, change_of};

use crate::header::Code;
use crate::numbers::number_in;
use crate::{Bit4, Change};

/// Whether a byte is a digit: 0, 1, or x or z in either case.
pub(crate) fn is_digit(byte: u8) -> bool
    ensures { result ≡ is_digit byte }
{
    match byte {
        b'0' | b'1' | b'x' | b'X' | b'z' | b'Z' => true,
        _ => false,
    }
}

/// Whether all bytes are digits.
fn all_digits(text: &[u8]) -> bool
    ensures { result ≡ list_all is_digit text.now }
{
    text.iter().all(|byte| is_digit(*byte))
}

/// Whether all bytes are digits, of which there are some.
pub(crate) fn are_digits(text: &[u8]) -> bool
    ensures { result ≡ are_digits text.now }
{
    if text.is_empty() {
        return false;
    }
    all_digits(text)
}

/// The bit that a digit writes.
fn bit_of(byte: u8) -> Bit4
    ensures { result ≡ bit_of byte }
{
    match byte {
        b'0' => Bit4::Zero,
        b'1' => Bit4::One,
        b'z' | b'Z' => Bit4::Z,
        _ => Bit4::X,
    }
}

/// The number that digits write in so many bits; None where one that isn't cut off is x or z, or where it has more than 64
/// bits.
#[tactic(auto, using(crate::proofs::Widths::cut_is), unfolding(crate::specs::Values::value_of))]
fn value_of(width: u32, digits: &[u8]) -> Option<u64>
    ensures { result ≡ value_of width digits.now }
{
    let cut = digits.len().saturating_sub(width as usize);
    let (_, rest) = digits.split_at(cut);
    number_in(2, rest)
}

/// The last digit.
#[tactic(auto, unfolding(crate::specs::Values::low_of))]
fn low_of(digits: &[u8]) -> Bit4
    ensures { result ≡ low_of digits.now }
{
    match digits.last() {
        Some(digit) => bit_of(*digit),
        None => Bit4::X,
    }
}

/// The change of a code to what the digits write.
pub(crate) fn change_of(code: Code, digits: &[u8]) -> Change
    ensures { result ≡ change_of code digits.now }
{
    Change {
        code: code.number,
        value: value_of(code.width, digits),
        low: low_of(digits),
    }
}
