//! Street: text.
//!
//! Readers of single tokens and of lists with separators, and parts of the tree on their way to their places.
#![tactic(auto)]

mod held;
mod lists;
mod reader;

pub use held::{Held, add, alone};
pub use lists::{Item, NO_ROOM, put_last};
pub use reader::{Reader, between};
