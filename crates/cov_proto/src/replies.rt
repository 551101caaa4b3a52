//! What is answered.
use cov_tree::Name;
use ucis_model::Answer;

/// What a reply says.
#[derive(Drop)]
pub enum Body {
    /// What the store answers.
    Store(Answer),
    /// A Begin or a Piece is done.
    Done,
    /// The last reply of a session.
    Farewell,
    /// The body is no message, at this offset.
    BadMessage { at: u32 },
    /// No upload is open.
    NoUpload,
    /// An upload is open already.
    StageBusy,
    /// So many bytes are too many.
    TooLong { n: u64 },
    /// The piece passes the end of an upload of `len` bytes.
    Outside { offset: u64, len: u64 },
    /// The least place that was received before with another byte.
    Differs { at: u64 },
    /// The least place that was not received.
    Missing { at: u64 },
    /// The SHA-256 of what was received is this one.
    DigestDiffers { got: [u8; 32] },
    /// The upload is no record: 1 Short, 2 BadMagic, 3 BadVersion, 4 BadField, 5 TooManyEvents, 6 Trailing, with the fault's number,
    /// which is 0 for BadMagic.
    BadRecord { code: u8, number: u64 },
    /// The first table of the record that isn't the design's.
    WrongShape { at: u32 },
    /// The upload is no design text: the kind of its first fault, and the place.
    BadDesign { at: u32, kind: Name },
    /// The first table of the new design that isn't the old one's.
    ShapeDiffers { at: u32 },
    /// Whoever answers only reads.
    ReadOnly,
}

/// What is answered, and the point of the history at which it holds.
#[derive(Drop)]
pub struct Reply {
    pub point: u64,
    pub body: Body,
}
