//! Street: sampling.
//!
//! Counting the bins of a point along the samples of its instance (IEEE 1800-2017, 19.5): each sample is taken once,
//! and no trace is kept.
#![tactic(auto)]

mod counting;
mod machines;
mod plan;
mod planning;
mod point;
mod quick;
mod state;
mod words;

pub use plan::PointPlan;
pub use point_tables::{Entrance, Entry, Lookup, Machine, Question, Questions, Removers};
pub use state::{Ending, PointState, Steps};
