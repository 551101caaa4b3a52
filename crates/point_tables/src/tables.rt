//! What is prepared of a point's bins before its samples are counted.

use const_eval::Typ;
use cov_base::Int;
use design_data::BinKind;
use trans_auto::{Removing, Watcher};
use value_index::Index;

/// An index of the bins of values, by keys: how far a value stands above the least one.
pub struct Lookup {
    /// The value whose key is 0.
    pub least: Int,
    /// Finds for each key the places of the bins that have its value, ascending.
    pub index: Index,
    /// The places of the bins that are met where the value is Unknown.
    pub unknown: Vec<u32>,
}

impl Drop for Lookup {
    fn drop(self) {
        let Lookup {
            least: _,
            index: _,
            unknown: _,
        } = self;
    }
}

/// How the bins of values are asked, one by one.
pub struct Questions {
    /// The type whose bits the patterns speak of.
    pub typ: Typ,
    /// One for each bin, or for the first ones; the others are asked by their rule.
    pub list: Vec<Question>,
}

impl Drop for Questions {
    fn drop(self) {
        let Questions { typ: _, list: _ } = self;
    }
}

/// How a bin of values is asked whether it has a value.
#[derive(Clone, Copy, Drop)]
pub enum Question {
    /// By the bits at the places that are fixed, where the value is a number of the type.
    Bits { fixed: u64, bits: u64 },
    /// By the ends of the only range of its set.
    Range { low: Int, high: Int },
    /// By its rule.
    Rule,
}

/// What is asked of a bin that a sample meets.
#[derive(Clone, Copy, Drop)]
pub struct Entry {
    /// Whether it counts for coverage.
    pub covers: bool,
    /// How many coverage bins come before it.
    pub number: u32,
    /// The place of the first of the bins with its guard that stand together there, where it has one.
    pub guard: Option<u32>,
}

/// The automaton of a transition bin.
pub struct Machine {
    /// The bin's place among those of its point.
    pub place: u32,
    /// The bin's kind.
    pub kind: BinKind,
    pub watcher: Watcher,
}

impl Drop for Machine {
    fn drop(self) {
        let Machine {
            place: _,
            kind: _,
            watcher: _,
        } = self;
    }
}

/// The values with which windows of a bin may begin: no number whose key is beyond the bounds, and where it is bounded not
/// Unknown either.
#[derive(Drop)]
pub struct Entrance {
    pub bounded: bool,
    /// The key of the lower bound: how far it stands above the least `Int`.
    pub low: u64,
    pub high: u64,
}

/// The sequences that take windows away from coverage bins, from ignore bins, and from no bin.
pub struct Removers {
    pub covering: Removing,
    pub ignoring: Removing,
    pub none: Removing,
}

impl Drop for Removers {
    fn drop(self) {
        let Removers {
            covering: _,
            ignoring: _,
            none: _,
        } = self;
    }
}
