//! Whether a number agrees with a pattern.
ghost use Rattle.std.specs.Prelude.{◌≡◌, ◌<◌, ◌^◌, ◌≤ℤ◌};
ghost use Rattle.bin_spec.specs.Types.{lowest, highest};
ghost use Rattle.wildcard_bins.specs.Patterns.{agrees, bits_of};

use crate::Pattern;
use cov_base::{Int, highest_of, lowest_of, ones, power_of_two};

impl Pattern {
    /// The least number of the pattern's width and sign.
    pub(crate) fn lowest(&self) -> Int
        ensures { result ≡ lowest self.now.width self.now.signed }
    {
        lowest_of(self.width, self.signed)
    }

    /// The greatest number of the pattern's width and sign.
    fn highest(&self) -> Int
        ensures { result ≡ highest self.now.width self.now.signed }
    {
        highest_of(self.width, self.signed)
    }

    /// The bits of a number, which is one of the pattern's width and sign.
    fn bits_of(&self, v: Int) -> u64
        requires low { lowest self.now.width self.now.signed ≤ℤ v }
        requires high { v ≤ℤ highest self.now.width self.now.signed }
        ensures value { result ≡ bits_of self.now.width v }
        ensures bound { result < 2 ^ self.now.width }
    {
        let number = v.get();
        let width = self.width.get();
        if number >= 0 {
            return number as u64;
        }
        (power_of_two(width) - number.unsigned_abs()) as u64
    }

    /// Whether the number is one of the pattern's width and sign, and has the pattern's bit at each place that isn't
    /// free. It takes no memory.
    pub fn matches(&self, v: Int) -> bool
        ensures { result ≡ agrees self.now v }
    {
        // its bits are no more than 64
        let _width = self.width.get();
        let number = v.get();
        let low = self.lowest().get();
        if number < low {
            return false;
        }
        let high = self.highest().get();
        if number > high {
            return false;
        }
        let fixed = !self.free & ones(self.width);
        (self.bits_of(v) ^ self.bits) & fixed == 0
    }
}
