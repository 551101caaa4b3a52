//! The number of seats.
ghost use Rattle.std.specs.Prelude.{◌≡◌, ◌≤◌, IfSome};
ghost use Rattle.cov_serve.specs.Seats.{most_callers, digit_of, number_of, seats_of};

/// The most seats of a server, each of a caller that is served at the time.
const MOST_CALLERS: u32 = 256;

/// The number of a decimal digit.
fn digit(byte: u8) -> Option<u32>
    ensures number { result ≡ digit_of byte }
    ensures small { IfSome result (λ n. n ≤ 9) }
{
    if byte.is_ascii_digit() {
        Some((byte - b'0') as u32)
    } else {
        None
    }
}

/// The number of one to three decimal digits.
fn number(word: &[u8]) -> Option<u32>
    ensures { result ≡ number_of word.now }
{
    match word {
        [c] => digit(*c),
        [b, c] => {
            let tens = digit(*b)?;
            Some(10 * tens + digit(*c)?)
        }
        [a, b, c] => {
            let hundreds = digit(*a)?;
            let tens = digit(*b)?;
            Some(10 * (10 * hundreds + tens) + digit(*c)?)
        }
        _ => None,
    }
}

/// The number of seats that the word says: 1 to 256, by one to three decimal digits.
pub(crate) fn seats(word: &[u8]) -> Option<u32>
    ensures number { result ≡ seats_of word.now }
    ensures some { IfSome result (λ n. 1 ≤ n) }
    ensures most { IfSome result (λ n. n ≤ most_callers) }
{
    let n = number(word)?;
    if 1 <= n && n <= MOST_CALLERS {
        Some(n)
    } else {
        None
    }
}
