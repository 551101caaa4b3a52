//! Street: nodes and answers.
//!
//! What a history may amount to: four amounts at once, each with its limit.
#![tactic(auto)]

mod amounts;

pub use amounts::{Amounts, amount, passed};
