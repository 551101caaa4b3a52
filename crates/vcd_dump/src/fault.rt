//! Why no record comes of a dump.
ghost use Rattle.std.specs.Prelude.{◌≡◌};
ghost use Rattle.vcd_dump.specs.declared.fault.Fault.TheVariants as faults;
ghost use Rattle.vcd_dump.specs.declared.fault.DumpFault.TheVariants as refusals;

use std::alloc::{AllocError, AllocFailed};
use thiserror::Error;

/// Why a dump isn't read, or gives no record. A place in a dump is the number of bytes before the word that is at fault.
#[derive(Clone, Copy, Debug, PartialEq, Eq, Error)]
pub enum DumpFault {
    /// The word at `at` may not stand there; or the dump ends too early, at its length.
    #[error("the word at byte {at} of the dump may not stand there")]
    Syntax { at: u32 },
    /// The time at `at` is below the one before.
    #[error("the time at byte {at} of the dump is below the one before")]
    TimeBack { at: u32 },
    /// The code in the word at `at` isn't declared.
    #[error("the code at byte {at} of the dump isn't declared")]
    UnknownCode { at: u32 },
    /// The event of the group at byte `at` of the design text names what is neither a variable nor a `ref` formal, or its
    /// `iff` names what an event doesn't see.
    #[error("the event of the group at byte {at} can't be watched")]
    BadEvent { at: u32 },
    /// The scope has no variable of the name of signal number `n`.
    #[error("the scope has no variable for signal {n}")]
    NoSignal { n: u64 },
    /// The variable of signal number `n` has another width.
    #[error("the variable of signal {n} has another width")]
    WidthDiffers { n: u64 },
    /// The record would have `n` events, more than 1,048,576.
    #[error("{n} events are too many")]
    TooManyEvents { n: u64 },
    /// The record would have `n` bytes, more than 8,388,608.
    #[error("{n} bytes are too many")]
    TooLong { n: u64 },
    /// Memory ran out.
    #[error("out of memory")]
    Memory,
}

/// The first fault of a dump in reading order, or want of memory. A place is told by the number of bytes that are left
/// where its word begins.
#[derive(Clone, Copy)]
pub(crate) enum Fault {
    /// The word may not stand there, or the text ends too early.
    Syntax { left: usize },
    /// A time is below the one before.
    TimeBack { left: usize },
    /// A code isn't declared.
    UnknownCode { left: usize },
    /// Memory ran out.
    Memory,
}

impl From<cov_ground::Memory> for DumpFault {
    ghost from_gives = { λ _ e. e ≡ refusals.Memory };

    fn from(_: cov_ground::Memory) -> Self {
        DumpFault::Memory
    }
}

impl From<cov_ground::Memory> for Fault {
    ghost from_gives = { λ _ e. e ≡ faults.Memory };

    fn from(_: cov_ground::Memory) -> Self {
        Fault::Memory
    }
}

impl<T: Drop> From<AllocFailed<T>> for Fault {
    ghost from_gives = { λ _ e. e ≡ faults.Memory };

    fn from(_: AllocFailed<T>) -> Self {
        Fault::Memory
    }
}

impl From<AllocError> for Fault {
    ghost from_gives = { λ _ e. e ≡ faults.Memory };

    fn from(_: AllocError) -> Self {
        Fault::Memory
    }
}
