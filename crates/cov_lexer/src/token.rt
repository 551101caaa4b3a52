//! Tokens, and why a text has none.
ghost use Rattle.std.specs.Prelude.{◌≡◌};
ghost use Rattle.cov_lexer.specs.declared.token.LexFault.TheVariants.{Memory};

use crate::kind::Kind;
use std::alloc::{AllocError, AllocFailed};
use thiserror::Error;

/// The kinds of tokens.
#[derive(Clone, Copy, Debug, PartialEq, Eq)]
pub enum TokenKind {
    /// A name of at most 1,024 bytes: a letter or `_`, then letters, digits, `_` and `$`.
    Ident,
    /// A name that the language has for itself, whether it is supported or not.
    Keyword,
    /// `$` and a name behind it.
    System,
    /// A decimal number with no size.
    Decimal,
    /// A number with its base, and with its size or without.
    Based,
    /// A text in quotes, without newline; no byte escapes another.
    Text,
    /// An operator, `$` alone included.
    Operator,
    /// An operator that isn't supported, an apostrophe alone included.
    NotSupported,
}

/// A token of a text.
#[derive(Clone, Copy, PartialEq, Eq)]
pub struct Token {
    /// What it is.
    pub kind: TokenKind,
    /// Which word or operator it is, or what else, as a grammar tells tokens apart. Each `[` is an `OpenSquare`.
    pub spelled: Kind,
    /// Where it begins, in bytes from the beginning of the text.
    pub at: u32,
    /// How many bytes it has, 1 at least.
    pub len: u32,
}

/// Why a text has no tokens. A place is in bytes from the beginning of the text.
#[derive(Clone, Copy, Debug, PartialEq, Eq, Error)]
pub enum LexFault {
    /// No token begins at this byte, which is outside comments and strings.
    #[error("no token begins at byte {at}")]
    BadByte { at: u32 },
    /// The comment that begins there has no end.
    #[error("the comment at byte {at} is not ended")]
    OpenComment { at: u32 },
    /// The string that begins there has no end in its line.
    #[error("the string at byte {at} is not ended")]
    OpenString { at: u32 },
    /// The literal that begins there has a size outside 1 to 64, or bits outside its width.
    #[error("the literal at byte {at} is too wide")]
    LiteralTooWide { at: u32 },
    /// The name that begins there has more than 1,024 bytes.
    #[error("the name at byte {at} is too long")]
    NameTooLong { at: u32 },
    /// Memory ran out.
    #[error("out of memory")]
    Memory,
}

impl From<AllocError> for LexFault {
    ghost from_gives = { λ _ e. e ≡ Memory };

    fn from(_: AllocError) -> Self {
        LexFault::Memory
    }
}

impl<T: Drop> From<AllocFailed<T>> for LexFault {
    ghost from_gives = { λ _ e. e ≡ Memory };

    fn from(_: AllocFailed<T>) -> Self {
        LexFault::Memory
    }
}
