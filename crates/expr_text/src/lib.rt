//! Street: meaning.
//!
//! Expressions as text of SystemVerilog, for those who read what a coverpoint samples.
#![tactic(auto)]

mod names;
mod operators;
mod walk;

pub use walk::append_expr;
