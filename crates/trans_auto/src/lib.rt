//! Street: meaning.
//!
//! Automata of transition bins: whether a window that ends at the latest sample counts (IEEE 1800-2017, 19.5.2). The
//! bins of one point share the sequences that take windows away from them.
#![tactic(auto)]

mod automaton;
mod bits;
mod fault;
mod marks;
mod removing;
mod runs;
mod side;
mod state;
mod steps;
mod watcher;

pub use automaton::Automaton;
pub use fault::AutoFault;
pub use removing::{Removing, Step};
pub use state::TransState;
pub use watcher::{Answer, Watcher};
