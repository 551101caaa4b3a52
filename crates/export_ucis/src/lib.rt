//! Street: store.
//!
//! What a store says, as one text of the interchange format of UCIS 1.0.
#![tactic(auto)]

mod bins;
mod covers;
mod export;
mod items;
mod tests;

pub use export::ucis_lines;
