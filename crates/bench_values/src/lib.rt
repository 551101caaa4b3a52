//! Street: measurements.
//!
//! The measurements of `bench` that stand on expressions, transitions and tallies alone, and what all of its measurements
//! share: their words, and the line that each prints.
#![tactic(auto)]

mod answers;
pub mod expressions;
mod random;
pub mod ranking;
pub mod transitions;
mod words;

pub use answers::{Found, show};
pub use random::after;
pub use words::{bytes_at, number_at, text_at};
