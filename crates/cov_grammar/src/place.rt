//! Places among the tokens, the limits of a text, and why a reading stops.
ghost use Rattle.std.specs.Prelude.{◌≡◌, ◌+◌, IfOk, IfErr};
ghost use Rattle.cov_grammar.specs.declared.place.Stop.TheVariants.{Memory, TooDeep};

use std::alloc::{AllocError, AllocFailed};

/// A place among the tokens.
#[derive(Clone, Copy, PartialEq, Eq)]
pub struct Place {
    /// How many tokens stand before it.
    pub at: usize,
    /// How many operators between two operands stand before it in the outermost expression, or of a selection.
    pub used: usize,
}

/// What a text may use up.
#[derive(Clone, Copy, PartialEq, Eq)]
pub struct Room {
    /// How many levels of an expression or of a selection may be open at once.
    pub levels: usize,
    /// How many operators between two operands an outermost expression, or a selection, may have.
    pub operators: usize,
}

impl Room {
    /// The room with one level less, which the token at this place takes; TooDeep there where none is left.
    pub fn deeper(self, at: usize) -> Result<Room, Stop>
        ensures levels { IfOk result (λ inner. inner.levels + 1 ≡ self.levels) }
        ensures operators { IfOk result (λ inner. inner.operators ≡ self.operators) }
        ensures none { IfErr result (λ _. self.levels ≡ 0) }
        ensures fault { IfErr result (λ stop. stop ≡ TooDeep at) }
    {
        if self.levels == 0 {
            return Err(Stop::TooDeep(at));
        }
        Ok(Room {
            levels: self.levels - 1,
            operators: self.operators,
        })
    }
}

/// Why a reading stops. The places are places in the list of tokens.
#[derive(Clone, Copy, PartialEq, Eq)]
pub enum Stop {
    /// Memory ran out.
    Memory,
    /// No continuation exists at this token.
    Syntax(usize),
    /// This token opens a level too many, or is an operator too many.
    TooDeep(usize),
}

impl From<AllocError> for Stop {
    ghost from_gives = { λ _ e. e ≡ Memory };

    fn from(_: AllocError) -> Self {
        Stop::Memory
    }
}

impl<T: Drop> From<AllocFailed<T>> for Stop {
    ghost from_gives = { λ _ e. e ≡ Memory };

    fn from(_: AllocFailed<T>) -> Self {
        Stop::Memory
    }
}

impl From<cov_tree::Memory> for Stop {
    ghost from_gives = { λ _ e. e ≡ Memory };

    fn from(_: cov_tree::Memory) -> Self {
        Stop::Memory
    }
}

/// Where an expression stands.
#[derive(Clone, Copy, PartialEq, Eq)]
pub enum Standing {
    /// Where a `[` behind a name opens an index.
    Plain,
    /// At the open end of a step of a sequence, where a repetition may follow. A `[` behind a name opens an index there
    /// if an expression can begin behind it, and every other `[` a repetition (IEEE 1800-2017, 19.5.2).
    StepEnd,
}
