//! Street: text.
//!
//! Readers of what a design text declares beside covergroups, and of a covergroup's event and members: coverpoints and
//! crosses with their options and bins.
#![tactic(auto)]

mod bins;
mod bodies;
mod cross_bins;
mod crosses;
mod declarations;
mod events;
mod items;
mod options;
mod points;
mod steps;
mod types;

pub use declarations::{enumeration, named, variables};
pub use events::event;
pub use items::members;
pub use range_parser::expr_behind;
pub use types::type_text;
