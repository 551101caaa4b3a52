//! Street: text.
//!
//! The grammar of a design text: kinds of tokens, its rules as definitions, and the facts about them that a parser is proved with.
#![tactic(auto)]

pub mod laws;
mod marked;
mod place;

pub use cov_lexer::Kind;
pub use marked::Marked;
pub use place::{Place, Room, Standing, Stop};
