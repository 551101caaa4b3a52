//! Street: text.
//!
//! Tokens of a design text, and what integer literals mean.
#![tactic(auto)]

mod bytes;
mod kind;
mod lexing;
mod literals;
mod operators;
mod pieces;
mod runs;
mod spellings;
mod token;

pub use bytes::Base;
pub use kind::Kind;
pub use lexing::lex;
pub use literals::literal;
pub use token::{LexFault, Token, TokenKind};
