//! Why an expression can't be bound.
use cov_base::Memory;
use std::alloc::AllocError;
use thiserror::Error;

/// The first fault of an expression. Each `at` is a place in the design text.
#[derive(Clone, Copy, Debug, PartialEq, Eq, Error)]
pub enum BindFault {
    /// A name isn't in scope.
    #[error("unknown name at {at}")]
    UnknownName { at: u32 },
    /// A literal, the type of a name or a concatenation hasn't 1 to 64 bits.
    #[error("too wide at {at}")]
    TooWide { at: u32 },
    /// A select is of a constant without a span, or its index is outside the span, or its ends are the wrong way round.
    #[error("bad select at {at}")]
    BadSelect { at: u32 },
    /// A literal without a size stands directly in a concatenation.
    #[error("bad concatenation at {at}")]
    BadConcat { at: u32 },
    /// A literal has bits that are `x`, `z` or `?`.
    #[error("unknown literal at {at}")]
    UnknownLiteral { at: u32 },
    /// An index names a signal, or its value is unknown.
    #[error("not constant at {at}")]
    NotConstant { at: u32 },
    /// Memory ran out.
    #[error("out of memory")]
    Memory,
}

impl From<Memory> for BindFault {
    ghost use Rattle.std.specs.Prelude.{◌≡◌};
    ghost use Rattle.const_eval.specs.declared.fault.BindFault.TheVariants as fault;

    ghost from_gives = { λ _ error. error ≡ fault.Memory };

    fn from(_: Memory) -> Self {
        BindFault::Memory
    }
}

impl From<AllocError> for BindFault {
    ghost use Rattle.std.specs.Prelude.{◌≡◌};
    ghost use Rattle.const_eval.specs.declared.fault.BindFault.TheVariants as fault;

    ghost from_gives = { λ _ error. error ≡ fault.Memory };

    fn from(_: AllocError) -> Self {
        BindFault::Memory
    }
}
