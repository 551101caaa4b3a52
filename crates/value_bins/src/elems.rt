//! A range list.
ghost use Rattle.std.specs.Prelude.{◌≡◌, length, filter, IfOk};
ghost use Rattle.cov_base.specs.Sets.{written, is_in};

use crate::ranges::count_of;
use crate::within::add_within;
use cov_base::{Int, Memory, ValueSet};
use std::alloc::Global;
use std::marker::Model;

/// A range list: it stands for the numbers of its ranges, one range after the other, each from its low to its high
/// end, and a number that stands in several ranges is listed several times (IEEE 1800-2017, 19.5.7). A range whose low
/// end exceeds its high end stands for no number. Contracts see the list of the ranges.
#[derive(Drop)]
pub struct Elems {
    ranges: Vec<(Int, Int)>,
}

impl Model for Elems {
    ghost use Rattle.std.specs.Prelude.{ℤ, List};

    ghost Value = { List (ℤ × ℤ) };

    ghost view = { λ elems. elems.ranges.items };
}

impl Elems {
    /// The ranges as they stand, each with its low and its high end. It takes no memory.
    pub fn of(ranges: Vec<(Int, Int)>) -> Elems
        ensures { result ≡ ranges.items }
    {
        Elems { ranges }
    }

    /// The ranges as they stand.
    pub fn as_slice(&self) -> &[(Int, Int)]
        ensures { result.now ≡ self.now }
    {
        self.ranges.as_slice()
    }

    /// How many numbers are listed, each as often as it is.
    pub fn count(&self) -> u128
        ensures { result ≡ length (written self.now) }
    {
        count_of(self.as_slice())
    }

    /// The listed numbers that are in the domain, in listed order and each as often as it is listed: further ones take
    /// no part (IEEE 1800-2017, 19.5.7). The work of a range is logarithmic in the domain's intervals, but for those
    /// that it meets.
    pub fn within(&self, alloc: Global, domain: &ValueSet) -> Result<Elems, Memory>
        ensures { IfOk result
            (λ kept. written kept ≡ filter (is_in (written domain.now)) (written self.now)) }
    {
        let mut kept = Vec::new(alloc);
        for range in self.as_slice() {
            add_within(&mut kept, range.0, range.1, domain.intervals())?;
        }
        Ok(Elems::of(kept))
    }
}
