//! Why a pattern can't be written as a set.
ghost use Rattle.std.specs.Prelude.{◌≡◌};
ghost use Rattle.wildcard_bins.specs.declared.fault.PatternFault.TheVariants.{Memory};

use thiserror::Error;

/// Why a pattern can't be written as a set.
#[derive(Clone, Copy, Debug, PartialEq, Eq, Error)]
pub enum PatternFault {
    /// So many intervals, which are more than 65,536.
    #[error("{count} ranges are too many")]
    TooManyRanges { count: u64 },
    /// Memory ran out.
    #[error("out of memory")]
    Memory,
}

impl From<cov_base::Memory> for PatternFault {
    ghost from_gives = { λ _ e. e ≡ Memory };

    fn from(_: cov_base::Memory) -> Self {
        PatternFault::Memory
    }
}
