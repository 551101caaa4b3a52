//! Street: definitions.
//!
//! Definitions that the crates of value bins cite: the numbers of a type and their bits, and how a list is spread over
//! bins. It has no code.
#![tactic(auto)]
