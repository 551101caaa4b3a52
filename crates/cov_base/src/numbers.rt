//! How many numbers a range and a type have, the ends of a type, and numbers of bits.
ghost use Rattle.std.specs.Prelude.{◌≡◌, ℕ, ◌<◌, ◌≤◌, ◌-◌, ◌*◌, ◌^◌, pos, ◌+ℤ◌, ◌≤ℤ◌};
ghost use Rattle.bin_spec.specs.Types.{lowest, highest, number_of};
ghost use Rattle.cov_ground.specs.Limits.{most_bits};
ghost use Rattle.cov_base.specs.Sets.{size, greatest};

use crate::Int;
use bit_width::Width;
use cov_ground::limits::MOST_BITS;

/// How many numbers stand from the low to the high end: none where the ends are the wrong way round, and at most
/// 2^64 + 2^63.
pub fn size_of(low: Int, high: Int) -> u128
    ensures size { result ≡ size (low, high) }
    ensures bound { result ≤ 3 * 2 ^ 63 }
    ensures reach { (offset : ℕ) → offset < result → (low +ℤ pos offset) ≤ℤ greatest }
{
    let low = low.get();
    let high = high.get();
    if low <= high {
        (high - low + 1) as u128
    } else {
        0
    }
}

/// Two to the power of a number of bits: how many numbers so many bits have.
pub fn power_of_two(bits: u8) -> u128
    requires { bits ≤ most_bits }
    ensures { result ≡ 2 ^ bits }
{
    1 << bits
}

/// So many ones: the greatest number of so many bits.
#[inline(always)]
pub fn ones(width: Width) -> u64
    ensures { result ≡ 2 ^ width - 1 }
{
    u64::MAX >> (MOST_BITS - width.get())
}

/// The least number of a type of so many bits, in two's complement where it is signed (IEEE 1800-2017, 6.11).
#[inline]
pub fn lowest_of(width: Width, signed: bool) -> Int
    ensures { result ≡ lowest width signed }
{
    if signed {
        Int::of(-(1 << (width.get() - 1)))
    } else {
        Int::of(0)
    }
}

/// The greatest number of a type of so many bits, in two's complement where it is signed (IEEE 1800-2017, 6.11).
#[inline]
pub fn highest_of(width: Width, signed: bool) -> Int
    ensures { result ≡ highest width signed }
{
    let width = width.get();
    if signed {
        Int::of((1 << (width - 1)) - 1)
    } else {
        Int::of((1 << width) - 1)
    }
}

/// The number that bits stand for: they are read without a sign, or in two's complement where it is signed (IEEE
/// 1800-2017, 6.11.3).
#[inline(always)]
pub fn read_bits(width: Width, signed: bool, bits: u64) -> Int
    ensures { result ≡ number_of width signed bits }
{
    let number = i128::from(bits);
    let half = 1u64 << (width.get() - 1);
    if signed && half <= bits {
        Int::of(number - 2 * i128::from(half))
    } else {
        Int::of(number)
    }
}
