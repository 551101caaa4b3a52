//! Street: nodes and answers.
//!
//! The holes of a cross, put together where all products with one member of a crossed point are holes.
#![tactic(auto)]

mod axes;
mod holes;
mod members;

pub use axes::Axis;
pub use holes::{CrossHoles, ProjectedHole, cross_holes};
