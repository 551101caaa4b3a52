//! Why a waivers file is refused.
ghost use Rattle.std.specs.Prelude.{◌≡◌};
ghost use Rattle.waivers.specs.declared.fault.LineFault.TheVariants as faults;
ghost use Rattle.waivers.specs.declared.fault.WaiverFault.TheVariants as refusals;

use thiserror::Error;

/// What is wrong in a waivers file.
#[derive(Clone, Copy, Debug, PartialEq, Eq)]
pub enum FaultKind {
    /// A line begins with another word than `waive`.
    BadLine,
    /// No pattern stands there, or it has a byte that isn't printable ASCII.
    BadPattern,
    /// The pattern matches the root, which stands for the whole design.
    MatchesRoot,
    /// No reason of one byte at least stands there between `"` and `"`, or it has a control byte.
    BadReason,
    /// No name stands behind `by`, or it has a control byte.
    BadName,
    /// No day that there is stands behind `on` as YYYY-MM-DD.
    BadDate,
    /// More stands on the line than a waiver.
    Extra,
    /// The line has more than 4,096 bytes before its end.
    LineTooLong,
    /// It is the waiver past the 65,536th.
    TooMany,
    /// The text has more than 1,048,576 bytes.
    TextTooLong,
}

/// Why no waivers are read.
#[derive(Clone, Copy, Debug, PartialEq, Eq, Error)]
pub enum WaiverFault {
    /// The first fault of the text: its kind, and how many bytes stand before the word at fault. Of a line or a text
    /// that is too long it is the limit's end, of a waiver too many its line's begin.
    #[error("the waivers are refused at byte {at}")]
    Bad { kind: FaultKind, at: u32 },
    /// Memory ran out.
    #[error("out of memory")]
    Memory,
}

/// The first fault of a line, told by how many bytes of the line are left at its place, or want of memory.
#[derive(Clone, Copy)]
pub(crate) enum LineFault {
    Bad { kind: FaultKind, left: usize },
    Memory,
}

impl From<cov_ground::Memory> for LineFault {
    ghost from_gives = { λ _ e. e ≡ faults.Memory };

    fn from(_: cov_ground::Memory) -> Self {
        LineFault::Memory
    }
}

impl From<cov_ground::Memory> for WaiverFault {
    ghost from_gives = { λ _ e. e ≡ refusals.Memory };

    fn from(_: cov_ground::Memory) -> Self {
        WaiverFault::Memory
    }
}
