//! Products and shifts. A shift may be by more than a word has bits.
ghost use Rattle.std.specs.Prelude.{◌≡◌, ◌/◌, ◌^◌, pos, ◌*ℤ◌};
ghost use Rattle.std.specs.Int.{int_shr};
ghost use Rattle.cov_base.specs.Sets.{IsInt};
ghost use Rattle.const_eval.specs.Values.{cut as cut_of};

use crate::bits::cut;
use bit_width::Width;
use cov_ground::limits::MOST_BITS;

/// The product.
#[inline(always)]
pub(crate) fn product(width: Width, signed: bool, x: i128, y: i128) -> i128
    ensures value { result ≡ cut_of width signed (x *ℤ y) }
    ensures range { IsInt result }
{
    cut(width, signed, x.wrapping_mul(y))
}

/// The number times 2 to the amount.
#[inline(always)]
pub(crate) fn shifted_left(width: Width, signed: bool, x: i128, amount: u64) -> i128
    ensures value { result ≡ cut_of width signed (x *ℤ pos (2 ^ amount)) }
    ensures range { IsInt result }
{
    if amount < u64::from(width.get()) {
        product(width, signed, x, i128::from(1u64 << amount))
    } else {
        0
    }
}

/// The bits divided by 2 to the amount.
#[inline(always)]
pub(crate) fn bits_shifted_right(bits: u64, amount: u64) -> u64
    ensures { result ≡ bits / 2 ^ amount }
{
    if amount < u64::from(MOST_BITS) {
        bits >> amount
    } else {
        0
    }
}

/// The number divided by 2 to the amount, rounded down.
#[inline(always)]
pub(crate) fn shifted_right(x: i128, amount: u64) -> i128
    requires { IsInt x }
    ensures { result ≡ int_shr x amount }
{
    if amount < u64::from(MOST_BITS) {
        x >> amount
    } else if x < 0 {
        -1
    } else {
        0
    }
}
