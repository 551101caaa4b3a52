//! Street: meaning.
//!
//! The numbers that a literal with wildcard digits stands for (IEEE 1800-2017, 19.5.4).
#![tactic(auto)]

mod fault;
mod matching;
mod pattern;
mod ranges;

pub use fault::PatternFault;
pub use pattern::Pattern;
