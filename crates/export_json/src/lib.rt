//! Street: store.
//!
//! What a store says, as one text of JSON (RFC 8259).
#![tactic(auto)]

mod bins;
mod covers;
mod export;
mod illegal;
mod items;
pub mod laws;
mod ranking;
mod tests;

pub use export::json_lines;
