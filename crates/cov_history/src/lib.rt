//! Street: nodes and answers.
//!
//! What a store answers: histories of what its callers changed, and the answer to each ask at a history, as definitions
//! with their laws.
#![tactic(auto)]

mod asking;
mod asks;
mod covering;
mod entry;
mod facts;
mod flags;
mod gone;
pub mod laws;
mod merging;
mod together;
mod whole;

pub use asking::coverage_answer;
pub use asks::Ask;
pub use covering::{bin_nodes, bins_under, push_if};
pub use entry::{Entry, Event, Revision};
pub use facts::{Facts, count, said};
pub use flags::is_excluded;
pub use gone::{design_at, found, out_at};
pub use history_limits::{Amounts, amount, passed};
pub use together::counts_of;
pub use whole::coverage_by_definition;
