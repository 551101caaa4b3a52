//! Street: meaning.
//!
//! Transition sequences (IEEE 1800-2017, 19.5.2): their lists of samples, by definition.
#![tactic(auto)]

pub mod laws;
mod reach;
mod seq;
mod size;
mod windows;

pub use reach::window_in;
pub use seq::{Item, Repeat, Seq, append_copies, copied_items, same_values};
pub use size::{cells, cells_of_items, cells_of_seqs};
pub use windows::is_inside;
