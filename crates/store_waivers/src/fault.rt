//! Why waivers aren't applied.
ghost use Rattle.std.specs.Prelude.{◌≡◌};
ghost use Rattle.store_waivers.specs.declared.fault.WaiveFault.TheVariants as faults;

use thiserror::Error;
use ucis_model::Which;

/// Why waivers aren't applied.
#[derive(Clone, Copy, Debug, PartialEq, Eq, Error)]
pub enum WaiveFault {
    /// A limit of the history would be passed: the amount now, and the one afterwards.
    #[error("the store is full: {have} now, {want} afterwards")]
    Full { which: Which, have: u64, want: u64 },
    /// Memory ran out.
    #[error("out of memory")]
    Memory,
}

impl From<cov_base::Memory> for WaiveFault {
    ghost from_gives = { λ _ e. e ≡ faults.Memory };

    fn from(_: cov_base::Memory) -> Self {
        WaiveFault::Memory
    }
}
