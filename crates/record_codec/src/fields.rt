//! The fields of a record, each read from the front of the bytes.
ghost use Rattle.std.specs.Prelude.{◌≡◌, ◌<◌, ◌≤◌};
ghost use Rattle.std.specs.List.{position};
ghost use Rattle.std.specs.Int.{w8, w16, w32, w64};
ghost use Rattle.record_codec.specs.Reading.{Gives, number_at, number_within, is_bad, text_at};

use crate::fault::Fault;
use cov_tree::Name;
use std::alloc::Global;

/// A number in one byte.
#[inline(always)]
pub(crate) fn u8_at(bytes: &[u8]) -> Result<(u8, &[u8]), Fault>
    ensures { Gives (λ x. (x.0, x.1.now)) result (number_at w8 bytes.now) }
{
    if bytes.is_empty() {
        return Err(Fault::Short { left: 0 });
    }
    let (front, rest) = bytes.split_at(1);
    Ok((front[0], rest))
}

/// A number in two bytes.
#[inline(always)]
pub(crate) fn u16_at(bytes: &[u8]) -> Result<(u16, &[u8]), Fault>
    ensures { Gives (λ x. (x.0, x.1.now)) result (number_at w16 bytes.now) }
{
    if bytes.len() < 2 {
        return Err(Fault::Short { left: bytes.len() });
    }
    let (front, rest) = bytes.split_at(2);
    Ok((u16::from_be_bytes([front[0], front[1]]), rest))
}

/// A number in four bytes.
pub(crate) fn u32_at(bytes: &[u8]) -> Result<(u32, &[u8]), Fault>
    ensures { Gives (λ x. (x.0, x.1.now)) result (number_at w32 bytes.now) }
{
    if bytes.len() < 4 {
        return Err(Fault::Short { left: bytes.len() });
    }
    let (front, rest) = bytes.split_at(4);
    let number = u32::from_be_bytes([front[0], front[1], front[2], front[3]]);
    Ok((number, rest))
}

/// A number in eight bytes.
#[inline(always)]
pub(crate) fn u64_at(bytes: &[u8]) -> Result<(u64, &[u8]), Fault>
    ensures { Gives (λ x. (x.0, x.1.now)) result (number_at w64 bytes.now) }
{
    if bytes.len() < 8 {
        return Err(Fault::Short { left: bytes.len() });
    }
    let (front, rest) = bytes.split_at(8);
    let number = u64::from_be_bytes([
        front[0], front[1], front[2], front[3], front[4], front[5], front[6], front[7],
    ]);
    Ok((number, rest))
}

/// A number from `least` to `most`, in one byte.
#[inline]
#[tactic(auto, unfolding(crate::specs::Reading::number_within))]
pub(crate) fn u8_within(least: u8, most: u8, bytes: &[u8]) -> Result<(u8, &[u8]), Fault>
    ensures { Gives (λ x. (x.0, x.1.now)) result (number_within w8 least most bytes.now) }
{
    let (number, rest) = u8_at(bytes)?;
    if number < least {
        return Err(Fault::BadField { left: bytes.len() });
    }
    if number > most {
        return Err(Fault::BadField { left: bytes.len() });
    }
    Ok((number, rest))
}

/// A number from `least` to `most`, in two bytes.
#[inline]
#[tactic(auto, unfolding(crate::specs::Reading::number_within))]
pub(crate) fn u16_within(least: u16, most: u16, bytes: &[u8]) -> Result<(u16, &[u8]), Fault>
    ensures { Gives (λ x. (x.0, x.1.now)) result (number_within w16 least most bytes.now) }
{
    let (number, rest) = u16_at(bytes)?;
    if number < least {
        return Err(Fault::BadField { left: bytes.len() });
    }
    if number > most {
        return Err(Fault::BadField { left: bytes.len() });
    }
    Ok((number, rest))
}

/// A number that isn't above the most, in eight bytes.
#[inline(always)]
#[tactic(auto, unfolding(crate::specs::Reading::number_within))]
pub(crate) fn u64_up_to(most: u64, bytes: &[u8]) -> Result<(u64, &[u8]), Fault>
    ensures { Gives (λ x. (x.0, x.1.now)) result (number_within w64 0 most bytes.now) }
{
    let (number, rest) = u64_at(bytes)?;
    if number > most {
        return Err(Fault::BadField { left: bytes.len() });
    }
    Ok((number, rest))
}

/// The first byte of a text that is below `low` or above 126.
pub(crate) fn first_bad(low: u8, text: &[u8]) -> Option<usize>
    ensures { result ≡ position (is_bad low) text.now }
{
    text.iter().position(|byte| *byte < low || 127 <= *byte)
}

/// A text of at least so many bytes and at most so many, each from `low` on and below 127.
#[tactic(auto, unfolding(crate::specs::Reading::text_at))]
pub(crate) fn text_within(
    alloc: Global,
    least: u16,
    most: u16,
    low: u8,
    bytes: &[u8],
) -> Result<(Name, &[u8]), Fault>
    ensures { Gives (λ x. (x.0, x.1.now)) result (text_at least most low bytes.now) }
{
    let (count, rest) = u16_within(least, most, bytes)?;
    let count = count as usize;
    if rest.len() < count {
        return Err(Fault::Short { left: bytes.len() });
    }
    let (text, after) = rest.split_at(count);
    if let Some(bad) = first_bad(low, text) {
        return Err(Fault::BadField {
            left: rest.len() - bad,
        });
    }
    Ok((Name::of(alloc, text)?, after))
}
