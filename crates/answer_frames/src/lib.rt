//! Street: wire.
//!
//! Which answers have a spelling that a frame can hold, and Memory in the place of those that have none.
#![tactic(auto)]

mod held;

pub use held::kept;
