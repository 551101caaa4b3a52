//! Street: meaning.
//!
//! What the bins of a coverpoint are, with the laws of that, and what a point makes them of: filtered numbers, kept
//! patterns, automatic bins, those of `default`, and bins of transitions (IEEE 1800-2017, 19.5).
#![tactic(auto)]

mod auto;
mod filter;
pub mod laws;
mod plans;
mod rest;
mod transitions;
mod walked;
mod wildcards;

pub use auto::{add_undeclared, is_coverage};
pub use elab_transitions::Removers;
pub use filter::{filter_of, keep_numbers, passing};
pub use plans::{Head, Manner, Plan, Wanted, bin_of, check_room, indexed_name};
pub use rest::fill;
pub use trans_seq::Seq;
pub use transitions::{add_made, declare_default_sequence, declare_trans, transitions_left};
pub use walked::{Entry, Walked, keep_bins, keep_name, place_of};
pub use wildcards::{is_kept, numbers_in, pattern_rule};
