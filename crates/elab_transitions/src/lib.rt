//! Street: meaning.
//!
//! Transition bins of a coverpoint: their sequences, the bins of a declaration, and what removal leaves of them
//! (IEEE 1800-2017, 19.5.2, 19.5.5 and 19.5.6).
#![tactic(auto)]

mod bins;
pub mod laws;
mod left;
mod lists;
mod plans;
mod seqs;
mod shown;
mod steps;

pub use bins::{TransBins, default_bin, trans_bins};
pub use left::Removers;
pub use plans::Before;
