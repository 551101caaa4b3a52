//! Why a sequence can't be written out.
ghost use Rattle.std.specs.Prelude.{◌≡◌};
ghost use Rattle.trans_found.specs.declared.fault.ExpandFault.TheVariants.{Memory};

use std::alloc::{AllocError, AllocFailed};
use thiserror::Error;

/// Why a sequence's lists can't be written out.
#[derive(Clone, Copy, Debug, PartialEq, Eq, Error)]
pub enum ExpandFault {
    /// An item has `[->` or `[=`, and so lists of any length.
    #[error("the sequence has lists of any length")]
    Unbounded,
    /// The greatest lengths of the items are more than `MOST_CELLS` together: that many, or the greatest `u64` where they are
    /// more than it says.
    #[error("the sequence has lists of {cells} values")]
    TooLong { cells: u64 },
    /// More than `MOST_BINS` lists are distinct: `count` is one more than the limit, at which the search ends.
    #[error("the sequence has {count} lists or more")]
    TooManyBins { count: u64 },
    /// Memory ran out.
    #[error("out of memory")]
    Memory,
}

impl From<cov_base::Memory> for ExpandFault {
    ghost from_gives = { λ _ fault. fault ≡ Memory };

    fn from(_: cov_base::Memory) -> Self {
        ExpandFault::Memory
    }
}

impl From<AllocError> for ExpandFault {
    ghost from_gives = { λ _ fault. fault ≡ Memory };

    fn from(_: AllocError) -> Self {
        ExpandFault::Memory
    }
}

impl<T: Drop> From<AllocFailed<T>> for ExpandFault {
    ghost from_gives = { λ _ fault. fault ≡ Memory };

    fn from(_: AllocFailed<T>) -> Self {
        ExpandFault::Memory
    }
}
