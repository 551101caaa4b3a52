//! Street: sampling.
//!
//! What is worked out before a record is counted: whether its tables are those of a design, the plans of the design's items,
//! and which items belong to a part of the work.
#![tactic(auto)]

mod known;
mod plan;
mod planning;
mod sameness;
mod shape;
mod sharing;

pub use plan::{InstPlan, ItemPlan, Plan};
pub use shape::{WrongShape, shape_fits};
pub use sharing::{label, labels_at, share_of};
