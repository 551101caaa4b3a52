//! Why a text has no syntax tree.
use thiserror::Error;

/// Why a text has no syntax tree. A place is in bytes from the beginning of the text; it is the text's length where the text ends too early.
#[derive(Clone, Copy, Debug, PartialEq, Eq, Error)]
pub enum ParseFault {
    /// No design goes on with the token at this byte.
    #[error("syntax error at byte {at}")]
    Syntax { at: u32 },
    /// No design goes on with the token at this byte, which SystemVerilog has and a design text hasn't.
    #[error("not supported at byte {at}")]
    NotSupported { at: u32 },
    /// The token at this byte opens level 65, or is operator 1,025 of an expression or a selection.
    #[error("too deep at byte {at}")]
    TooDeep { at: u32 },
    /// Memory ran out.
    #[error("out of memory")]
    Memory,
}
