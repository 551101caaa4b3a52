//! Decimal numbers in words.
ghost use Rattle.std.specs.Prelude.{◌≡◌, ◌≤◌, IfSome};
ghost use Rattle.cov_ground.specs.Limits.{most_tests};
ghost use Rattle.covd_commands.specs.Forms.{most_rounds};
ghost use Rattle.covd_commands.specs.Digits.{with_digit as with_digit_meant, written as written_meant, bounded as bounded_meant};

use cov_ground::limits::MOST_TESTS;

/// Rounds of a test, at most.
const MOST_ROUNDS: u64 = 1_048_576;

/// The number with a digit behind it.
fn with_digit(number: u64, byte: u8) -> Option<u64>
    ensures { result ≡ with_digit_meant number byte }
{
    if byte < b'0' {
        return None;
    }
    let digit = (byte - b'0') as u64;
    if digit >= 10 {
        return None;
    }
    number.checked_mul(10)?.checked_add(digit)
}

/// The number of at most 64 bits that one digit to so many digits write; None for every other word.
#[tactic(auto, using(crate::proofs::Digits::one_more, crate::proofs::Digits::stops, crate::proofs::Digits::all_read), unfolding(crate::specs::Digits::written))]
pub(crate) fn written(digits: usize, word: &[u8]) -> Option<u64>
    ensures { result ≡ written_meant digits word.now }
{
    if word.is_empty() {
        return None;
    }
    if word.len() > digits {
        return None;
    }
    let mut number: u64 = 0;
    let mut rest = word;
    while let Some((digit, later)) = rest.split_first() {
        number = with_digit(number, *digit)?;
        rest = later;
    }
    Some(number)
}

/// It, where it is not less than the least and not more than the most.
pub(crate) fn bounded(least: u64, most: u64, number: Option<u64>) -> Option<u64>
    ensures is { result ≡ bounded_meant least most number }
    ensures within { IfSome result (λ bounded. bounded ≤ most) }
{
    let number = number?;
    if number < least {
        return None;
    }
    if number > most {
        return None;
    }
    Some(number)
}

/// The seed of a generator: one digit to 20 digits.
pub(crate) fn seed_of(word: &str) -> Option<u64>
    ensures { result ≡ written_meant 20 word.now }
{
    written(20, word.as_bytes())
}

/// A number of rounds: one digit to 7 digits, at most 1,048,576.
pub(crate) fn rounds_of(word: &str) -> Option<u64>
    ensures { result ≡ bounded_meant 0 most_rounds (written_meant 7 word.now) }
{
    bounded(0, MOST_ROUNDS, written(7, word.as_bytes()))
}

/// A number of tests: one digit to 4 digits, from 1 to 4,096.
pub(crate) fn tests_of(word: &str) -> Option<u64>
    ensures { result ≡ bounded_meant 1 most_tests (written_meant 4 word.now) }
{
    bounded(1, MOST_TESTS, written(4, word.as_bytes()))
}
