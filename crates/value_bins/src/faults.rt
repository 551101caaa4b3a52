//! Why listed numbers can't be put into bins.
ghost use Rattle.std.specs.Prelude.{◌≡◌};
ghost use Rattle.value_bins.specs.declared.faults.SpreadFault.TheVariants as spread_fault;
ghost use Rattle.value_bins.specs.declared.faults.FilterFault.TheVariants as filter_fault;

use std::alloc::{AllocError, AllocFailed};
use thiserror::Error;

/// Why numbers can't be spread over bins.
#[derive(Clone, Copy, Debug, PartialEq, Eq, Error)]
pub enum SpreadFault {
    /// No bin is asked for.
    #[error("there is no bin to spread the values over")]
    ZeroBins,
    /// So many bins, which are more than 65,536.
    #[error("{count} bins are too many")]
    TooManyBins { count: u64 },
    /// Memory ran out.
    #[error("out of memory")]
    Memory,
}

/// Why numbers can't be filtered.
#[derive(Clone, Copy, Debug, PartialEq, Eq, Error)]
pub enum FilterFault {
    /// So many numbers are listed, which are more than 1,048,576.
    #[error("{count} values are too many to filter")]
    TooManyValues { count: u128 },
    /// Memory ran out.
    #[error("out of memory")]
    Memory,
}

impl From<cov_base::Memory> for SpreadFault {
    ghost from_gives = { λ _ e. e ≡ spread_fault.Memory };

    fn from(_: cov_base::Memory) -> Self {
        SpreadFault::Memory
    }
}

impl From<AllocError> for SpreadFault {
    ghost from_gives = { λ _ e. e ≡ spread_fault.Memory };

    fn from(_: AllocError) -> Self {
        SpreadFault::Memory
    }
}

impl<T: Drop> From<AllocFailed<T>> for SpreadFault {
    ghost from_gives = { λ _ e. e ≡ spread_fault.Memory };

    fn from(_: AllocFailed<T>) -> Self {
        SpreadFault::Memory
    }
}

impl From<cov_base::Memory> for FilterFault {
    ghost from_gives = { λ _ e. e ≡ filter_fault.Memory };

    fn from(_: cov_base::Memory) -> Self {
        FilterFault::Memory
    }
}
