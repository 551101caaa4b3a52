//! Street: sampling.
//!
//! Words in a sorted table, and which of them a trace ends with: lists of single values of transition bins (IEEE
//! 1800-2017, 19.5.2) by the last values alone, without an automaton each.
#![tactic(auto)]

mod placed;
mod recent;
mod row;
mod table;

pub use placed::PlacedWords;
pub use recent::Recent;
pub use row::PlacedWord;
pub use table::WordTable;
