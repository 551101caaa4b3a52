//! Street: sampling.
//!
//! What is prepared of a point's bins, and how it is asked (IEEE 1800-2017, 19.5): an index of the bins of values, or a
//! question for each, the automaton or the word of each transition bin, and what is asked of a bin that a sample meets.
#![tactic(auto)]

mod entrances;
mod entries;
mod keys;
mod lookups;
mod patterns;
mod questions;
mod rules;
mod tables;
mod transitions;
mod values;
mod words;

pub use entrances::first_stirring;
pub use entries::entries_of;
pub use keys::key_of;
pub use lookups::lookup_of;
pub use questions::questions_of;
pub use rules::note;
pub use tables::{Entrance, Entry, Lookup, Machine, Question, Questions, Removers};
pub use transitions::{Divided, divided_of, watcher};
pub use values::add_values;
