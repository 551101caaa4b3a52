//! Street: store.
//!
//! The text of a report: the tests of a store, its coverage, its illegal bins and its ranking.
#![tactic(auto)]

mod coverage;
mod illegal;
mod ranking;
mod report;
mod tests;

pub use report::{report_lines, short_lines};
