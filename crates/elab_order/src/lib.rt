//! Street: meaning.
//!
//! The bins of a design are numbered in the order of its nodes: by groups, in each group by its instances, and in each
//! instance by its items.
#![tactic(auto)]

pub mod laws;
mod numbers;

pub use numbers::{Load, number};
