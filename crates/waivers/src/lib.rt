//! Street: store.
//!
//! Waivers: which nodes of a design are left out of its coverage, by patterns of their paths, and why.
#![tactic(auto)]

mod dates;
mod fault;
pub mod laws;
mod lines;
mod nodes;
mod patterns;
mod pieces;
mod reading;
mod rows;
#[cfg(test)]
mod tests;
mod texts;
mod waiver;
mod words;

pub use fault::{FaultKind, WaiverFault};
pub use nodes::{paths_of, waived_among, waived_nodes};
pub use patterns::{Pattern, matches};
pub use reading::{LONGEST_TEXT, read_waivers};
pub use texts::{append_refusal, append_waiver, append_waivers};
pub use waiver::Waiver;
