//! Street: text.
//!
//! What it means that the first tokens of a text are viable, and that each kind a rule reads, each literal and each word has
//! its meaning.
#![tactic(auto)]

pub mod laws;
