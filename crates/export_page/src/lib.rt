//! Street: store.
//!
//! What a store says, as one page of HTML that needs no other file.
#![tactic(auto)]

mod bins;
mod chosen;
mod holes;
mod illegal;
pub mod laws;
mod nodes;
mod page;
mod ranking;
mod tests;
mod verdict;

pub use page::append_page;
