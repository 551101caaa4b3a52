//! Why bytes are no record.
ghost use Rattle.std.specs.Prelude.{◌≡◌};
ghost use Rattle.record_codec.specs.declared.fault.Fault.TheVariants as faults;

use std::alloc::{AllocError, AllocFailed};
use thiserror::Error;

/// Why bytes are not read as a record: the first fault in reading order, or want of memory. A place is the number of
/// bytes before it.
#[derive(Clone, Copy, Debug, PartialEq, Eq, Error)]
pub enum RecordFault {
    /// A field that begins at `at` runs past the end.
    #[error("the field at byte {at} runs past the end")]
    Short { at: u32 },
    /// The bytes don't begin with CVRC.
    #[error("the bytes don't begin with CVRC")]
    BadMagic,
    /// The version is neither 1 nor 2.
    #[error("the version {v} is not read")]
    BadVersion { v: u16 },
    /// The field at `at`, or the byte of a text there, is out of its range.
    #[error("the field at byte {at} is out of its range")]
    BadField { at: u32 },
    /// `n` events are announced, more than 1,048,576.
    #[error("{n} events are too many")]
    TooManyEvents { n: u64 },
    /// Bytes stand behind the last event, from `at` on.
    #[error("bytes follow the last event from byte {at} on")]
    Trailing { at: u32 },
    /// Memory ran out.
    #[error("out of memory")]
    Memory,
}

/// The first fault of the bytes in reading order, or want of memory. A place is told by the number of bytes left there.
#[derive(Clone, Copy, PartialEq, Eq)]
pub(crate) enum Fault {
    /// A field that begins there runs past the end.
    Short { left: usize },
    /// The bytes don't begin with CVRC.
    BadMagic,
    /// The version is neither 1 nor 2.
    BadVersion { version: u16 },
    /// A field, or a byte of a text, that is out of its range begins there.
    BadField { left: usize },
    /// More than 1,048,576 events are announced.
    TooManyEvents { count: u32 },
    /// Bytes stand behind the last event.
    Trailing { left: usize },
    /// Memory ran out.
    Memory,
}

impl From<cov_tree::Memory> for Fault {
    ghost from_gives = { λ _ e. e ≡ faults.Memory };

    fn from(_: cov_tree::Memory) -> Self {
        Fault::Memory
    }
}

impl<T: Drop> From<AllocFailed<T>> for Fault {
    ghost from_gives = { λ _ e. e ≡ faults.Memory };

    fn from(_: AllocFailed<T>) -> Self {
        Fault::Memory
    }
}

impl From<AllocError> for Fault {
    ghost from_gives = { λ _ e. e ≡ faults.Memory };

    fn from(_: AllocError) -> Self {
        Fault::Memory
    }
}
