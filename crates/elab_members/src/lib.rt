//! Street: meaning.
//!
//! The members of a group at one of its instances: coverpoints with the numbers of their types, crosses with the points
//! that only they name, and how many items and bins a design has with them (IEEE 1800-2017, 19.3, 19.5 and 19.6).
#![tactic(auto)]

mod counts;
mod cross_names;
mod crosses;
mod defaults;
mod domains;
mod intersections;
mod items;
mod members;
mod points;

pub use counts::Counts;
pub use defaults::DefaultNames;
pub use items::{Inside, Items};
pub use members::{inside_of, walk_members};
