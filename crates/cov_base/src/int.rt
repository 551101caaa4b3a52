//! A whole number of the range that signals and constants have.
ghost use Rattle.std.specs.Prelude.{◌≡◌, ◌≤ℤ◌, ◌<ℤ◌, ◌+ℤ◌, ◌-ℤ◌, pos, int_le, SomeIff};
ghost use Rattle.std.specs.Int.{int_max};
ghost use Rattle.cov_base.specs.Sets.{least, greatest, IsInt};

use std::marker::Model;

/// A whole number from -2^63 to 2^64 - 1: every value of a signed or an unsigned 64 bit type.
#[derive(Clone, Copy, Debug, PartialEq, Eq, PartialOrd, Ord)]
pub struct Int {
    number: i128,
}

impl Model for Int {
    ghost use Rattle.std.specs.Prelude.{ℤ};
    ghost use Rattle.cov_base.specs.Sets.{IsInt};

    ghost Value = { ℤ };

    ghost view = { λ int. int.number };

    ghost invariant = { λ int. IsInt int.number };

    ghost inverse = { λ number. record { number = number } };
}

const LEAST: i128 = -0x8000_0000_0000_0000;

const GREATEST: i128 = 0xffff_ffff_ffff_ffff;

impl Int {
    /// The number, where it is in the range.
    pub const fn new(number: i128) -> Option<Int>
        ensures { SomeIff result (IsInt number) number }
    {
        if number < LEAST {
            return None;
        }
        if number > GREATEST {
            return None;
        }
        Some(Int { number })
    }

    /// The number, which is in the range.
    #[inline(always)]
    pub const fn of(number: i128) -> Int
        requires { IsInt number }
        ensures { result ≡ number }
    {
        Int { number }
    }

    /// The number.
    #[inline(always)]
    pub const fn get(self) -> i128
        ensures value { result ≡ self }
        ensures range { IsInt self }
    {
        self.number
    }

    /// The larger of the two.
    pub(crate) fn larger(self, other: Int) -> Int
        ensures { result ≡ int_max self other }
    {
        if other.number < self.number {
            self
        } else {
            other
        }
    }

    /// Whether it isn't above the other.
    #[inline(always)]
    pub(crate) fn at_most(self, other: Int) -> bool
        ensures { result ≡ int_le self other }
    {
        self.number <= other.number
    }

    /// The number that is so much higher.
    pub fn plus(self, offset: u128) -> Int
        requires { (self +ℤ pos offset) ≤ℤ greatest }
        ensures { result ≡ self +ℤ pos offset }
    {
        Int {
            number: self.number + offset as i128,
        }
    }

    /// The next number.
    pub(crate) fn next(self) -> Int
        requires { self <ℤ greatest }
        ensures { result ≡ self +ℤ pos 1 }
    {
        Int {
            number: self.number + 1,
        }
    }

    /// The number before it.
    pub(crate) fn previous(self) -> Int
        requires { least <ℤ self }
        ensures { result ≡ self -ℤ pos 1 }
    {
        Int {
            number: self.number - 1,
        }
    }
}
