//! What is declared outside groups.
use const_eval::{Scope, Typ};
use cov_base::Int;
use cov_tree::{List, Name};
use design_data::Signal;
use elab_base::What;
use name_map::NameMap;

/// All names of a design so far, those that are values, its enumerations and its signals.
#[derive(Drop)]
pub struct Outside {
    pub names: NameMap<What>,
    pub scope: Scope,
    pub enumerations: List<Enumeration>,
    pub signals: List<Signal>,
}

/// An enumeration (IEEE 1800-2017, 6.19).
#[derive(Drop)]
pub struct Enumeration {
    /// Its base.
    pub typ: Typ,
    /// The low end of its base's span.
    pub low: u8,
    /// Its constants, in order.
    pub constants: List<(Name, Int)>,
}

/// A type as an expression sees it.
#[derive(Clone, Copy, PartialEq, Eq)]
pub struct Shape {
    /// How many bits it has, and whether they are signed.
    pub typ: Typ,
    /// The low end of its span.
    pub low: u8,
    /// The place of the enumeration that it is.
    pub enumeration: Option<u32>,
}
