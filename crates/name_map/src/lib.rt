//! Street: ground.
//!
//! Names with what they stand for: the scopes of a design.
#![tactic(auto)]

mod names;

pub use names::NameMap;
