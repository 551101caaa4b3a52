//! Street: meaning.
//!
//! The options of covergroups, coverpoints and crosses: which there are, where each may stand, which values it takes
//! and what it is where nothing is set (IEEE 1800-2017, 19.7).
#![tactic(auto)]

mod options;
mod table;
mod values;

pub use options::Options;
pub use values::{Level, OptFault, OptValue};
