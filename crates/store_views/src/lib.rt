//! Street: store.
//!
//! What a store says node by node, bin by bin and test by test, for those who write it down.
#![tactic(auto)]

mod nodes;
mod ranking;
mod state;
mod tests;
mod words;

pub use nodes::{bins_under, children, instance_at};
pub use ranking::ranked;
pub use state::{BinState, is_illegal_hit, kind_of, state_of};
pub use tests::all_tests;
pub use words::{VERSION, state_word, status_word};
