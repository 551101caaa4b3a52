//! Why an automaton can't be made.
ghost use Rattle.std.specs.Prelude.{◌≡◌};
ghost use Rattle.trans_auto.specs.declared.fault.AutoFault.TheVariants.{Memory};

use std::alloc::{AllocError, AllocFailed};
use thiserror::Error;

/// Why an automaton can't be made.
#[derive(Clone, Copy, Debug, PartialEq, Eq, Error)]
pub enum AutoFault {
    /// The own sequences, or else the removing ones, have more than 120 cells together: that many, or the greatest
    /// `u64` where they are more than it says.
    #[error("the sequences have {cells} cells")]
    TooLong { cells: u64 },
    /// Memory ran out.
    #[error("out of memory")]
    Memory,
}

impl From<cov_base::Memory> for AutoFault {
    ghost from_gives = { λ _ fault. fault ≡ Memory };

    fn from(_: cov_base::Memory) -> Self {
        AutoFault::Memory
    }
}

impl From<AllocError> for AutoFault {
    ghost from_gives = { λ _ fault. fault ≡ Memory };

    fn from(_: AllocError) -> Self {
        AutoFault::Memory
    }
}

impl<T: Drop> From<AllocFailed<T>> for AutoFault {
    ghost from_gives = { λ _ fault. fault ≡ Memory };

    fn from(_: AllocFailed<T>) -> Self {
        AutoFault::Memory
    }
}
