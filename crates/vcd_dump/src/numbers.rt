//! Numbers as they are written.
ghost use Rattle.std.specs.Prelude.{◌≡◌, ◌≤◌};
ghost use Rattle.vcd_dump.specs.Numbers.{with_digit, number_in};

/// The number with a digit of a base behind it.
fn with_digit(base: u64, number: u64, byte: u8) -> Option<u64>
    requires least { 2 ≤ base }
    requires most { base ≤ 10 }
    ensures { result ≡ with_digit base number byte }
{
    if byte < b'0' {
        return None;
    }
    let digit = (byte - b'0') as u64;
    if digit >= base {
        return None;
    }
    number.checked_mul(base)?.checked_add(digit)
}

/// The number of at most 64 bits that digits of a base of 2 to 10 write; None where it is greater, where a byte is no such
/// digit, and where there are none.
#[tactic(auto, using(crate::proofs::Found::one_more, crate::proofs::Found::stops, crate::proofs::Found::all_read), unfolding(crate::specs::Numbers::number_in))]
pub(crate) fn number_in(base: u64, digits: &[u8]) -> Option<u64>
    requires least { 2 ≤ base }
    requires most { base ≤ 10 }
    ensures { result ≡ number_in base digits.now }
{
    if digits.is_empty() {
        return None;
    }
    let mut number: u64 = 0;
    let mut rest = digits;
    while let Some((digit, later)) = rest.split_first() {
        number = with_digit(base, number, *digit)?;
        rest = later;
    }
    Some(number)
}
