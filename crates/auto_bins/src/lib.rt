//! Street: meaning.
//!
//! The automatic bins of a coverage point that declares none (IEEE 1800-2017, 19.5.3).
#![tactic(auto)]

mod ranges;

pub use ranges::{Typ2, auto_ranges};
