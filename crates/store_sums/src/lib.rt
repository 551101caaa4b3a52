//! Street: store.
//!
//! Running sums over a design's nodes: the counts of its bins, the nodes that are out of coverage, and what is marked of each
//! bin, so that coverage is told without a look at the tests.
#![tactic(auto)]

mod branches;
mod changes;
mod cover;
mod groups;
mod marks;
mod merged;
mod nodes;
mod places;
mod rows;
mod runs;
mod sums;

pub use branches::{Branches, Facts, part_of};
pub use marks::marks_of;
pub use places::{nothing_out, put_at};
pub use runs::Runs;
pub use sums::Sums;
