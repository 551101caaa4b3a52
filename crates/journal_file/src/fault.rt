//! Why a journal isn't opened.
use thiserror::Error;

/// Why a journal isn't opened. Places are in bytes of the journal.
#[derive(Clone, Copy, Debug, PartialEq, Eq, Error)]
pub enum OpenFault {
    /// A call of the disk failed.
    #[error("the disk failed")]
    DiskFault,
    /// The file is no journal, or the item behind the open gate at this place isn't whole.
    #[error("no journal goes on at byte {at}")]
    BadJournal { at: u64 },
    /// The journal is for the design text of this SHA-256.
    #[error("the journal is of another design")]
    OtherDesign { digest: [u8; 32] },
    /// The sum of the item at this place isn't its own, or items are missing there.
    #[error("the journal is damaged at byte {at}")]
    Damaged { at: u64 },
    /// The items reach to 2^62 bytes.
    #[error("the journal is too long")]
    TooLong,
    /// Memory ran out.
    #[error("memory ran out")]
    Memory,
}
