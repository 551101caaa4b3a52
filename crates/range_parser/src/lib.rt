//! Street: text.
//!
//! Readers of a design text's values and ranges, and of selections of products.
#![tactic(auto)]

mod ranges;
mod selections;

pub use expr_parser::{expr_behind, whole_expr};
pub use ranges::{elems, in_parens, values};
pub use selections::selection;
