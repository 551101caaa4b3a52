//! Patterns as text, and their ends.
ghost use Rattle.std.specs.Prelude.{◌≡◌, ◌<◌, ◌≤◌, ◌*◌, ◌^◌, ◌∷◌, ◌++◌, pos, codes, if◌then◌else◌, OnOk};
ghost use Rattle.ucis_elements.specs.Numbers.{place_text, places_text, pattern_text as text_meant, filled_bit as bit_meant, filled as filled_meant, ending as ending_meant, signed_ending as signed_meant};

use appending::{append, append_number};
use cov_base::{Memory, power_of_two};
use wildcard_bins::Pattern;

/// The digit of a place.
fn digit_of(pattern: &Pattern, place: u8) -> u8
    requires { place < 64 }
    ensures { result ≡ place_text pattern.now place }
{
    if (pattern.free >> place) & 1 == 1 {
        return b'?';
    }
    b'0' + ((pattern.bits >> place) & 1) as u8
}

/// The digits of so many lowest places, the highest first.
#[tactic(auto, using(crate::proofs::Places::one_less))]
fn append_places(text: &mut Vec<u8>, pattern: &Pattern, places: u8) -> Result<(), Memory>
    requires { places ≤ 64 }
    ensures { OnOk result (text.new.items ≡ text.old.items ++ places_text pattern.now places) }
{
    let mut place = places;
    while place > 0 {
        place -= 1;
        text.push(digit_of(pattern, place))?;
    }
    Ok(())
}

/// What stands before the digits of a literal.
fn base_of(signed: bool) -> &'static str
    ensures { result.now ≡ (if signed then codes "sb" else codes "b") }
{
    if signed { "sb" } else { "b" }
}

/// A literal of the pattern.
#[tactic(auto, unfolding(crate::specs::Numbers::pattern_text))]
pub(crate) fn append_pattern(text: &mut Vec<u8>, pattern: &Pattern) -> Result<(), Memory>
    ensures { OnOk result (text.new.items ≡ text.old.items ++ text_meant pattern.now) }
{
    let width = pattern.width.get();
    append_number(text, u64::from(width))?;
    append(text, b"'")?;
    append(text, base_of(pattern.signed).as_bytes())?;
    append_places(text, pattern, width)
}

/// The bit of a place, with this one where it is free.
fn filled_bit(pattern: &Pattern, bit: u64, place: u8) -> u64
    requires place { place < 64 }
    requires bit { bit < 2 }
    ensures value { result ≡ bit_meant pattern.now bit place }
    ensures bound { result < 2 }
{
    if (pattern.free >> place) & 1 == 1 {
        return bit;
    }
    (pattern.bits >> place) & 1
}

/// What a bit at a place counts.
fn counted(bit: u64, place: u8) -> u128
    requires place { place < 64 }
    requires bit { bit < 2 }
    ensures value { result ≡ 2 ^ place * bit }
    ensures bound { result ≤ 2 ^ place }
    ensures small { result ≤ 2 ^ 63 }
{
    if bit == 0 { 0 } else { power_of_two(place) }
}

/// The number of so many lowest places, with this bit at each one that is free.
fn filled(pattern: &Pattern, bit: u64, places: u8) -> u128
    requires places { places ≤ 64 }
    requires bit { bit < 2 }
    ensures value { result ≡ filled_meant pattern.now bit places }
    ensures bound { result < 2 ^ places }
    ensures small { result < 2 ^ 64 }
{
    let mut sum = 0u128;
    for place in 0..places {
        sum += counted(filled_bit(pattern, bit, place), place);
    }
    sum
}

/// A number that is small as one that may have a sign.
fn as_signed(number: u128) -> i128
    requires { number < 2 ^ 64 }
    ensures { result ≡ pos number }
{
    number as i128
}

/// The number with this bit at each free place, and `sign` at that of the sign, where there is one.
fn signed_ending(pattern: &Pattern, bit: u64, sign: u64) -> i128
    requires bit { bit < 2 }
    requires sign { sign < 2 }
    ensures { result ≡ signed_meant pattern.now bit sign }
{
    let below = pattern.width.get() - 1;
    let top = counted(filled_bit(pattern, sign, below), below);
    as_signed(filled(pattern, bit, below)) - as_signed(top)
}

/// The number with this bit at each free place, and `sign` at that of the sign.
fn ending(pattern: &Pattern, bit: u64, sign: u64) -> i128
    requires bit { bit < 2 }
    requires sign { sign < 2 }
    ensures { result ≡ ending_meant pattern.now bit sign }
{
    if pattern.signed {
        return signed_ending(pattern, bit, sign);
    }
    as_signed(filled(pattern, bit, pattern.width.get()))
}

/// The least number that agrees with a pattern.
pub(crate) fn least(pattern: &Pattern) -> i128
    ensures { result ≡ ending_meant pattern.now 0 1 }
{
    ending(pattern, 0, 1)
}

/// The greatest number that agrees with a pattern.
pub(crate) fn greatest(pattern: &Pattern) -> i128
    ensures { result ≡ ending_meant pattern.now 1 0 }
{
    ending(pattern, 1, 0)
}
