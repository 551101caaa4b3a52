//! Street: store.
//!
//! A team's waivers applied to a store, and what a report says of them.
#![tactic(auto)]

mod fault;
mod hits;
mod texts;
mod waiving;

pub use fault::WaiveFault;
pub use hits::append_hits;
pub use texts::{append_full, append_unwaived};
pub use waiving::waive;
