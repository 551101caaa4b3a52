//! Street: meaning.
//!
//! Sets of products of a cross, as bits in the order of the products, so that many are decided at a time.
#![tactic(auto)]

mod bits;
mod numbers;
mod runs;
mod words;

pub use bits::ProductBits;
