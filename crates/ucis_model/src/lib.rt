//! Street: nodes and answers.
//!
//! The nodes of a design with their paths, named after the UCIS data model, and what a store is asked and answers about
//! them (IEEE 1800-2017, clause 19).
#![tactic(auto)]

mod answers;
mod building;
mod growing;
mod index;
pub mod laws;
mod node;
mod paths;

pub use answers::{Answer, Answered, CountRow, CoverRow, HistoryKind, HistoryNode, Which};
pub use building::tree;
pub use index::Tree;
pub use node::{Node, NodeKind};
