//! Street: meaning.
//!
//! The lists of samples of transition sequences (IEEE 1800-2017, 19.5.2), by search.
#![tactic(auto)]

mod chosen;
mod listing;
mod met;
mod spread;
mod widened;

pub use listing::{expand, expand_all};
pub use trans_found::ExpandFault;
