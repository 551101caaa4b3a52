//! Street: sampling.
//!
//! What counting means (IEEE 1800-2017, 19.3 to 19.6): when each bin of a design is hit in a record, the tally of both,
//! its laws, and a plain program that makes it by definition.
#![tactic(auto)]

mod crosses;
pub mod laws;
mod points;
mod rules;
mod tables;
mod tally;
mod values;

pub use rules::{bin_holds, holds, in_patterns, is_listed};
pub use tables::{instance_rows, signal_rows};
pub use tally::tally_by_definition;
pub use values::{arg_value, samples, signal_value};
