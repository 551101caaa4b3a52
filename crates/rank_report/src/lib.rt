//! Street: store.
//!
//! Which tests add most to the coverage that is wanted, in greedy order.
#![tactic(auto)]

mod hits;
pub mod laws;
mod lines;
mod ranking;

pub use lines::rank_lines;
pub use ranking::rank;
