//! Tokens with their kinds.
use cov_lexer::Kind;

/// A token of a text with its kind.
#[derive(Clone, Copy, PartialEq, Eq)]
pub struct Marked {
    /// What it is to the grammar.
    pub kind: Kind,
    /// Where it begins, in bytes from the beginning of the text.
    pub at: u32,
    /// How many bytes it has, 1 at least.
    pub len: u32,
}
