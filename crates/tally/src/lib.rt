//! Street: sampling.
//!
//! The counts of one test: a row for each bin that was hit.
#![tactic(auto)]

mod ranked;
mod tally;

pub use ranked::Ranked;
pub use tally::Tally;
