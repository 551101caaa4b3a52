//! Street: text.
//!
//! Readers of a design text's expressions.
#![tactic(auto)]

mod expr;
mod operators;

pub use expr::{expr_behind, whole_expr};
