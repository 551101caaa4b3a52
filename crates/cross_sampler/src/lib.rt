//! Street: sampling.
//!
//! Counting the bins of a cross along the samples of its instance (IEEE 1800-2017, 19.6), from the bins of its points
//! that are hit at each.
#![tactic(auto)]

mod building;
mod known;
mod numbers;
mod once;
mod plan;
mod products;
mod sampling;
mod state;

pub use known::Known;
pub use plan::{CrossPlan, Table};
pub use state::CrossState;
