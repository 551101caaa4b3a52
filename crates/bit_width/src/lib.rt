//! Street: ground.
//!
//! The number of bits of a type, as a type that has no other numbers.
#![tactic(auto)]

mod width;

pub use width::Width;
