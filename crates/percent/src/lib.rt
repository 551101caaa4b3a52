//! Street: store.
//!
//! Percentages of coverage in millionths, rounded down.
#![tactic(auto)]

mod mean;

ghost use Rattle.std.specs.Prelude.{◌≡◌, ◌≤◌};
ghost use Rattle.percent.specs.Millionths.{full};

pub use mean::{Mean, weighted};

/// The whole.
const WHOLE: u32 = 1_000_000;

/// The covered part of some bins, in millionths; the whole where there are no bins.
pub fn item(covered: u32, bins: u32) -> u32
    requires { covered ≤ bins }
    ensures { result ≡ full covered bins }
{
    if bins == 0 {
        return WHOLE;
    }
    (u64::from(WHOLE) * u64::from(covered) / u64::from(bins)) as u32
}
