//! Street: meaning.
//!
//! The lists of samples that are found for transition sequences (IEEE 1800-2017, 19.5.2), each once, and which of them are
//! known.
#![tactic(auto)]

pub mod alone;
mod fault;
pub mod found;
pub mod held;
pub mod marks;
pub mod tries;

pub use fault::ExpandFault;
