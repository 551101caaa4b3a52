//! Street: sampling.
//!
//! An index from values to the sets that have them: a table of buckets, the cuts of the sets, and for each segment
//! between two cuts the row of its sets. A look-up takes no memory and doesn't walk the sets.
#![tactic(auto)]

mod build;
mod index;
mod room;
mod rows;
mod segment;
mod sets;

pub use index::Index;
pub use rows::Rows;
pub use sets::{Set, Span};
