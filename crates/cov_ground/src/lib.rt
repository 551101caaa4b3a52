//! Street: ground.
//!
//! What all crates share: want of memory, and the limits of the product with their names.
#![tactic(auto)]

pub mod limits;
mod memory;

pub use memory::Memory;
