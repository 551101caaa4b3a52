//! Street: definitions.
//!
//! Definitions that the contracts of all crates cite: causes of failures, what the outside tells, how often a
//! property holds, and when a number is in ranges. It has no code.
#![tactic(auto)]
