//! Street: store.
//!
//! The bins of a store as lines of text: all of them, and those that are holes.
#![tactic(auto)]

mod bins;
mod holes;
mod lines;
mod live;

pub use bins::bins_lines;
pub use holes::holes_lines;
