//! Street: ground.
//!
//! The bytes of a journal: its header, the heads of its items, and the sums by which damage is seen.
#![tactic(auto)]

mod head;
mod header;
pub mod laws;
mod sums;

pub use head::Head;
pub use header::{empty_journal, kept_digest};
pub use sums::sum_behind;
