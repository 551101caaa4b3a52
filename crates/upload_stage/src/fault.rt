//! Why a stage refuses.
use thiserror::Error;

/// Why a call of a stage was refused.
#[derive(Clone, Copy, Debug, PartialEq, Eq, Error)]
pub enum StageFault {
    /// No upload is open.
    #[error("no upload is open")]
    NoUpload,
    /// An upload is open already.
    #[error("an upload is open")]
    StageBusy,
    /// The stated length in bytes is above that of the longest record.
    #[error("{n} bytes are too long an upload")]
    TooLong { n: u64 },
    /// A piece passes the end of an upload of `len` bytes.
    #[error("the piece at {offset} passes the end at {len}")]
    Outside { offset: u64, len: u64 },
    /// The least place of a piece that was received before with another byte.
    #[error("another byte was received at {at}")]
    Differs { at: u64 },
    /// The least place with no byte.
    #[error("no byte was received at {at}")]
    Missing { at: u64 },
    /// The bytes have this digest, which isn't the one that was wanted.
    #[error("the digest differs")]
    DigestDiffers { got: [u8; 32] },
    /// Memory ran out. The stage is as before.
    #[error("out of memory")]
    Memory,
}
