//! What a dump holds.
use crate::Steps;
use cov_tree::{List, Name};

/// A value change dump: its variables in order of declaration, and its steps in order of time.
#[derive(Drop)]
pub struct Dump {
    pub vars: List<DumpVar>,
    pub steps: Steps,
}

/// A declared variable.
#[derive(Drop)]
pub struct DumpVar {
    /// The names of the scopes that it stands in, from the outermost on, joined by dots; a dot where it stands in none.
    pub scope: Name,
    /// Its name up to a bracket.
    pub name: Name,
    /// How many bits its code has.
    pub width: u32,
    /// Whether it is a bit or a word `[n]` of what has the name.
    pub selected: bool,
    /// The number of its code, which variables of several scopes may share.
    pub code: u32,
}

/// The changes at one time.
#[derive(Drop)]
pub struct DumpStep {
    /// The time, in the dump's own unit.
    pub time: u64,
    pub changes: List<Change>,
}

/// A change of the value of a code.
#[derive(Clone, Copy, PartialEq, Eq)]
pub struct Change {
    /// The number of the code.
    pub code: u32,
    /// The value from now on; None where some bit of it is x or z, or where it has more than 64 bits.
    pub value: Option<u64>,
    /// The lowest bit of the value.
    pub low: Bit4,
}

/// A bit of four values (IEEE 1800-2017, 6.3.1).
#[derive(Clone, Copy, PartialEq, Eq)]
pub enum Bit4 {
    Zero,
    One,
    X,
    Z,
}
