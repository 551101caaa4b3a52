//! Numbers as bits, and bits as numbers.
ghost use Rattle.std.specs.Prelude.{◌≡◌, ◌<◌, ◌^◌};
ghost use Rattle.bit_width.specs.Widths.{HasWidth};
ghost use Rattle.bin_spec.specs.Types.{number_of as number_of_bits};
ghost use Rattle.cov_base.specs.Sets.{IsInt};
ghost use Rattle.const_eval.specs.Values.{bits_of, cut as cut_of, cut_to as cut_to_typ};

use crate::Typ;
use bit_width::Width;
use cov_base::{Int, ones, read_bits};

/// The number modulo 2 to the width.
#[inline(always)]
pub(crate) fn low_bits(width: Width, number: i128) -> u64
    ensures value { result ≡ bits_of width number }
    ensures below { result < 2 ^ width }
    ensures width { HasWidth width }
{
    // its bits are 1 to 64
    let _width = width.get();
    let word = (number.cast_unsigned() & 0xffff_ffff_ffff_ffff) as u64;
    word & ones(width)
}

/// The number that bits of a type stand for: they are read without a sign, or in two's complement (IEEE 1800-2017,
/// 6.11.3).
#[inline(always)]
pub fn number_of(typ: Typ, bits: u64) -> Int
    requires { bits < 2 ^ typ.width }
    ensures { result ≡ number_of_bits typ.width typ.signed bits }
{
    read_bits(typ.width(), typ.is_signed(), bits)
}

/// The number modulo 2 to the width, read by the sign.
#[inline(always)]
#[tactic(auto, unfolding(crate::specs::Values::cut))]
pub(crate) fn cut(width: Width, signed: bool, number: i128) -> i128
    ensures value { result ≡ cut_of width signed number }
    ensures range { IsInt result }
    ensures width { HasWidth width }
{
    read_bits(width, signed, low_bits(width, number)).get()
}

/// The number modulo 2 to the width of a type, read without a sign, or in two's complement (IEEE 1800-2017, 10.7).
#[inline(always)]
#[tactic(auto, unfolding(crate::specs::Values::cut))]
pub fn cut_to(typ: Typ, number: Int) -> Int
    ensures { result ≡ cut_to_typ typ number }
{
    Int::of(cut(typ.width(), typ.is_signed(), number.get()))
}
