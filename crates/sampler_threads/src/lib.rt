//! Street: sampling.
//!
//! Records binned in several threads: each takes some of the items over all events, and for every such split the counts
//! are the same.
#![tactic(auto)]

mod labels;
mod parallel;
mod preparing;

pub use parallel::counts_par_under;
pub use preparing::{bin_record_par, bin_record_par_under};
