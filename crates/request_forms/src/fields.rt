//! Fields from the front of bytes, and texts that take all of them.
ghost use Rattle.std.specs.Prelude.{◌≡◌, ◌≤◌, length};
ghost use Rattle.std.specs.List.{position};
ghost use Rattle.std.specs.Int.{w8, w32, w64};
ghost use Rattle.record_codec.specs.Limits.{longest_id};
ghost use Rattle.request_forms.specs.Reading.{number_at, number_within, flag_at, kind_at, digest_at, is_bad, chars_at, text_at, path, nothing, only};
ghost use Rattle.request_forms.specs.Given.{Gives};

use crate::fault::BadAt;
use design_data::BinKind;

// The number of the last kind of bins.
const LAST_KIND: u8 = 3;

/// Nothing stands there any more.
#[inline]
pub fn end(bytes: &[u8]) -> Result<(), BadAt>
    ensures { Gives (λ x. x) result (nothing bytes.now) }
{
    if !bytes.is_empty() {
        return Err(BadAt { left: bytes.len() });
    }
    Ok(())
}

/// A number in one byte.
#[inline]
pub(crate) fn u8_at(bytes: &[u8]) -> Result<(u8, &[u8]), BadAt>
    ensures { Gives (λ x. (x.0, x.1.now)) result (number_at w8 bytes.now) }
{
    if bytes.is_empty() {
        return Err(BadAt { left: 0 });
    }
    let (front, rest) = bytes.split_at(1);
    Ok((front[0], rest))
}

/// A number in four bytes.
#[inline]
pub fn u32_at(bytes: &[u8]) -> Result<(u32, &[u8]), BadAt>
    ensures { Gives (λ x. (x.0, x.1.now)) result (number_at w32 bytes.now) }
{
    if bytes.len() < 4 {
        return Err(BadAt { left: bytes.len() });
    }
    let (front, rest) = bytes.split_at(4);
    let number = u32::from_be_bytes([front[0], front[1], front[2], front[3]]);
    Ok((number, rest))
}

/// A number in eight bytes.
#[inline]
pub fn u64_at(bytes: &[u8]) -> Result<(u64, &[u8]), BadAt>
    ensures { Gives (λ x. (x.0, x.1.now)) result (number_at w64 bytes.now) }
{
    if bytes.len() < 8 {
        return Err(BadAt { left: bytes.len() });
    }
    let (front, rest) = bytes.split_at(8);
    let number = u64::from_be_bytes([
        front[0], front[1], front[2], front[3], front[4], front[5], front[6], front[7],
    ]);
    Ok((number, rest))
}

/// A number in one byte, from the least to the most.
#[inline]
#[tactic(auto, unfolding(crate::specs::Reading::number_within))]
pub fn u8_within(least: u8, most: u8, bytes: &[u8]) -> Result<(u8, &[u8]), BadAt>
    ensures { Gives (λ x. (x.0, x.1.now)) result (number_within w8 least most bytes.now) }
{
    let (number, rest) = u8_at(bytes)?;
    if number < least {
        return Err(BadAt { left: bytes.len() });
    }
    if number > most {
        return Err(BadAt { left: bytes.len() });
    }
    Ok((number, rest))
}

/// A flag: 0 or 1.
#[inline]
#[tactic(auto, unfolding(crate::specs::Reading::flag_at))]
pub fn flag_at(bytes: &[u8]) -> Result<(bool, &[u8]), BadAt>
    ensures { Gives (λ x. (x.0, x.1.now)) result (flag_at bytes.now) }
{
    let (number, rest) = u8_within(0, 1, bytes)?;
    Ok((number == 1, rest))
}

/// The number of a kind of bins, which is at most 3.
#[inline]
#[tactic(auto, unfolding(crate::specs::Reading::kind_at))]
pub fn kind_at(bytes: &[u8]) -> Result<(BinKind, &[u8]), BadAt>
    ensures { Gives (λ x. (x.0, x.1.now)) result (kind_at bytes.now) }
{
    let (number, rest) = u8_within(0, LAST_KIND, bytes)?;
    match number {
        0 => Ok((BinKind::CvgBin, rest)),
        1 => Ok((BinKind::IllegalBin, rest)),
        2 => Ok((BinKind::IgnoreBin, rest)),
        _ => Ok((BinKind::DefaultBin, rest)),
    }
}

fn digest_of(bytes: &[u8]) -> [u8; 32]
    requires { length bytes.now ≡ 32 }
    ensures { result ≡ bytes.now }
{
    let mut digest = [0u8; 32];
    digest.copy_from_slice(bytes);
    digest
}

/// The 32 bytes of a digest.
#[inline]
pub fn digest_at(bytes: &[u8]) -> Result<([u8; 32], &[u8]), BadAt>
    ensures { Gives (λ x. (x.0, x.1.now)) result (digest_at bytes.now) }
{
    if bytes.len() < 32 {
        return Err(BadAt { left: bytes.len() });
    }
    let (front, rest) = bytes.split_at(32);
    Ok((digest_of(front), rest))
}

/// The first byte of a text that is below `low` or above 126.
pub(crate) fn first_bad(low: u8, text: &[u8]) -> Option<usize>
    ensures { result ≡ position (is_bad low) text.now }
{
    text.iter().position(|byte| *byte < low || 127 <= *byte)
}

/// So many bytes from `low` on.
#[tactic(auto, unfolding(crate::specs::Reading::chars_at))]
fn chars_at(low: u8, count: usize, bytes: &[u8]) -> Result<(&[u8], &[u8]), BadAt>
    ensures { Gives (λ x. (x.0.now, x.1.now)) result (chars_at low count bytes.now) }
{
    if bytes.len() < count {
        return Err(BadAt { left: bytes.len() });
    }
    let (text, after) = bytes.split_at(count);
    if let Some(bad) = first_bad(low, text) {
        return Err(BadAt {
            left: bytes.len() - bad,
        });
    }
    Ok((text, after))
}

/// A text behind its length, which is from the least on, of bytes from `low` on.
#[tactic(auto, unfolding(crate::specs::Reading::text_at))]
pub fn text_at(least: u8, low: u8, bytes: &[u8]) -> Result<(&[u8], &[u8]), BadAt>
    ensures { Gives (λ x. (x.0.now, x.1.now)) result (text_at least low bytes.now) }
{
    let (count, rest) = length_at(least, bytes)?;
    chars_at(low, count as usize, rest)
}

// The length of a text, from the least on.
#[tactic(auto, unfolding(crate::specs::Reading::number_within))]
fn length_at(least: u8, bytes: &[u8]) -> Result<(u8, &[u8]), BadAt>
    ensures { Gives (λ x. (x.0, x.1.now)) result (number_within w8 least longest_id bytes.now) }
{
    let (count, rest) = u8_at(bytes)?;
    if count < least {
        return Err(BadAt { left: bytes.len() });
    }
    Ok((count, rest))
}

/// All of the bytes as a path.
pub fn path(bytes: &[u8]) -> Result<&[u8], BadAt>
    ensures { Gives (λ x. x.now) result (path bytes.now) }
{
    if let Some(bad) = first_bad(32, bytes) {
        return Err(BadAt {
            left: bytes.len() - bad,
        });
    }
    Ok(bytes)
}

/// All of the bytes as one number.
#[inline]
pub fn only_u32(bytes: &[u8]) -> Result<u32, BadAt>
    ensures { Gives (λ x. x) result (only (number_at w32) bytes.now) }
{
    let (number, rest) = u32_at(bytes)?;
    end(rest)?;
    Ok(number)
}

/// All of the bytes as one number.
#[inline]
pub fn only_u64(bytes: &[u8]) -> Result<u64, BadAt>
    ensures { Gives (λ x. x) result (only (number_at w64) bytes.now) }
{
    let (number, rest) = u64_at(bytes)?;
    end(rest)?;
    Ok(number)
}

/// All of the bytes as a digest.
#[inline]
pub fn only_digest(bytes: &[u8]) -> Result<[u8; 32], BadAt>
    ensures { Gives (λ x. x) result (only digest_at bytes.now) }
{
    let (digest, rest) = digest_at(bytes)?;
    end(rest)?;
    Ok(digest)
}
