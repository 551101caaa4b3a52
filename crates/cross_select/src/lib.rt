//! Street: meaning.
//!
//! Which products of a cross a selection selects, and how many products a cross has.
#![tactic(auto)]

mod products;
mod select;

pub use products::count_products;
pub use select::{Select, selects};
