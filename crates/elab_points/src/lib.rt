//! Street: meaning.
//!
//! The bins of a coverpoint: its declarations in order, the bins of values that they make, and what removal leaves of all
//! of them (IEEE 1800-2017, 19.5).
#![tactic(auto)]

mod declared;
mod left;
mod made;
mod manner;

pub use elab_bins::{Entry, Head, Manner, Plan, Walked, Wanted, laws};
pub use left::point_bins;
