//! Street: text.
//!
//! The syntax tree of a design text, or the exact place of its first fault.
#![tactic(auto)]

mod fault;
mod groups;
mod marks;
mod parsing;

pub use fault::ParseFault;
pub use parsing::parse;
