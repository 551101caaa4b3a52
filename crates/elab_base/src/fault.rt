//! Why a design is refused.
ghost use Rattle.std.specs.Prelude.{◌≡◌, OnOk, IsTrue};
ghost use Rattle.elab_base.specs.declared.fault.ElabFault.TheVariants.{Memory, Fault};
ghost use Rattle.elab_base.specs.Gives.{fault_of, needs, Gives};

use const_eval::BindFault;
use std::alloc::{AllocError, AllocFailed};
use thiserror::Error;

/// What is wrong with a design.
#[derive(Clone, Copy, Debug, PartialEq, Eq)]
pub enum ElabKind {
    /// A name is declared before in its scope: the design, the formals and sample arguments, the items, the bins of an item.
    DuplicateName,
    /// A type or a group isn't declared before.
    UnknownType,
    /// A name in an expression isn't in scope.
    UnknownName,
    /// A width is above 64, or a span isn't high >= low >= 0.
    TooWide,
    /// A select is of nothing that has bits, or its index is outside the declared span, or its ends are the wrong way round.
    BadSelect,
    /// A literal without a size stands directly in a concatenation.
    BadConcat,
    /// A literal with x, z or ? stands outside the elements of a wildcard bin.
    UnknownLiteral,
    /// Such a literal is an end of a range, or stands inside an operator, a concatenation or a select.
    BadWildcard,
    /// A signal is named where a constant is needed, or a constant is unknown.
    NotConstant,
    /// Two constants of an enumeration are equal, or one isn't a number of the base.
    BadEnum,
    /// There are more arguments than formals, or a formal without a default has none.
    ArgCount,
    /// A seventeenth argument of `sample`.
    TooManyArgs,
    /// A `ref` argument isn't the name of a signal of the same width, sign and enumeration.
    RefNotVariable,
    /// `name with` names another than its point.
    NotThisPoint,
    /// An ignore bin is `default` or `default sequence`.
    IgnoreDefault,
    /// The number of bins is below 1.
    ZeroBins,
    /// A repetition isn't 1 <= low <= high.
    BadRepeat,
    /// `[]` stands on a sequence whose length has no limit.
    Unbounded,
    /// More numbers are filtered than may be.
    TooManyValues,
    /// A set has more intervals than it may have.
    TooManyRanges,
    /// A sequence has more cells than it may have.
    TooLong,
    /// An item has more bins than it may have.
    TooManyBins,
    /// A cross names no point, signal or `ref` formal, or one twice, or one that is declared behind it.
    UnknownPoint,
    /// `binsof` names a point that isn't crossed.
    NotCrossed,
    /// `binsof` names no declared bin.
    UnknownBin,
    /// A cross has more points than it may have.
    TooManyPoints,
    /// A cross has more products than it may have.
    TooManyProducts,
    /// There is no such option.
    UnknownOption,
    /// The option isn't one of this level.
    WrongLevel,
    /// The value isn't one of the option.
    OutOfRange,
    /// The option is set before.
    SetTwice,
    /// The design has more signals, instances, items, bins or intervals than it may have.
    DesignLimit,
}

/// The first fault of a design on the walk through it, at a place of its text, or want of memory.
#[derive(Clone, Copy, Debug, PartialEq, Eq, Error)]
pub enum ElabFault {
    /// The fault.
    #[error("{kind:?} at {at}")]
    Fault { kind: ElabKind, at: u32 },
    /// Memory ran out.
    #[error("out of memory")]
    Memory,
}

impl From<AllocError> for ElabFault {
    ghost from_gives = { λ _ e. e ≡ Memory };

    fn from(_: AllocError) -> Self {
        ElabFault::Memory
    }
}

impl<T: Drop> From<AllocFailed<T>> for ElabFault {
    ghost from_gives = { λ _ e. e ≡ Memory };

    fn from(_: AllocFailed<T>) -> Self {
        ElabFault::Memory
    }
}

impl From<cov_ground::Memory> for ElabFault {
    ghost from_gives = { λ _ e. e ≡ Memory };

    fn from(_: cov_ground::Memory) -> Self {
        ElabFault::Memory
    }
}

impl From<BindFault> for ElabFault {
    ghost from_gives = { λ fault e. e ≡ fault_of fault };

    fn from(fault: BindFault) -> Self {
        match fault {
            BindFault::UnknownName { at } => ElabKind::UnknownName.at(at),
            BindFault::TooWide { at } => ElabKind::TooWide.at(at),
            BindFault::BadSelect { at } => ElabKind::BadSelect.at(at),
            BindFault::BadConcat { at } => ElabKind::BadConcat.at(at),
            BindFault::UnknownLiteral { at } => ElabKind::UnknownLiteral.at(at),
            BindFault::NotConstant { at } => ElabKind::NotConstant.at(at),
            BindFault::Memory => ElabFault::Memory,
        }
    }
}

impl ElabKind {
    /// The fault of this kind at a place.
    pub fn at(self, at: u32) -> ElabFault
        ensures { result ≡ Fault self at }
    {
        ElabFault::Fault { kind: self, at }
    }

    /// Nothing where it holds, and else the fault of this kind at a place.
    #[tactic(auto, unfolding(crate::specs::Gives::needs))]
    pub fn unless(self, holds: bool, at: u32) -> Result<(), ElabFault>
        ensures gives { Gives result (needs holds self at) }
        ensures holds { OnOk result (IsTrue holds) }
    {
        if holds { Ok(()) } else { Err(self.at(at)) }
    }
}
