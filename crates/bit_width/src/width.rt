//! The number of bits of a type.
ghost use Rattle.std.specs.Prelude.{◌≡◌, SomeIff};
ghost use Rattle.bit_width.specs.Widths.{HasWidth};

use cov_ground::limits::MOST_BITS;
use std::marker::Model;

/// The number of bits of a type, from 1 to 64.
#[derive(Clone, Copy, Debug, PartialEq, Eq)]
pub struct Width {
    bits: u8,
}

impl Model for Width {
    ghost use Rattle.std.specs.Prelude.{ℕ};
    ghost use Rattle.bit_width.specs.Widths.{HasWidth};

    ghost Value = { ℕ };

    ghost view = { λ width. width.bits };

    ghost invariant = { λ width. HasWidth width.bits };

    ghost inverse = { λ bits. record { bits = bits } };
}

impl Width {
    /// The width of so many bits, where a type may have so many.
    pub const fn new(bits: u8) -> Option<Width>
        ensures { SomeIff result (HasWidth bits) bits }
    {
        if bits < 1 {
            return None;
        }
        if bits > MOST_BITS {
            return None;
        }
        Some(Width { bits })
    }

    /// The width of so many bits, as a type may have.
    #[inline(always)]
    pub const fn of(bits: u8) -> Width
        requires { HasWidth bits }
        ensures { result ≡ bits }
    {
        Width { bits }
    }

    /// How many bits it is.
    #[inline(always)]
    pub const fn get(self) -> u8
        ensures value { result ≡ self }
        ensures range { HasWidth self }
    {
        self.bits
    }
}
