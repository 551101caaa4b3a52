//! Street: meaning.
//!
//! The ground of elaboration: faults with their kinds and places, steps that stop at the first fault, names of one scope,
//! and expressions where they stand (IEEE 1800-2017, clauses 11 and 19).
#![tactic(auto)]

mod expressions;
mod fault;
mod names;

pub use expressions::{bind_in, guard_in, number_in, share_guard, shared_guard_in};
pub use fault::{ElabFault, ElabKind};
pub use names::{What, add_name, check_unused};
