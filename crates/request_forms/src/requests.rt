//! What is asked.
use cov_tree::Name;
use thiserror::Error;

/// What is asked of a session. A path has bytes 20 to 7E, and an empty one is that of the root.
#[derive(Drop)]
pub enum Request {
    /// How many bins there are, where the history has come to this point.
    Hello { point: u64 },
    /// An upload of so many bytes.
    Begin { len: u64 },
    /// Bytes of the upload, from a place on.
    Piece { offset: u64, bytes: Name },
    /// To admit the upload, whose SHA-256 this is, as a record.
    Commit { digest: [u8; 32] },
    /// The counts of the bins below a node, from the first-th on.
    Counts { first: u32, path: Name },
    /// The coverage of a node.
    Coverage { path: Name },
    /// The illegal bins that were hit, from the first-th on.
    Illegal { first: u32 },
    /// The tests in order of admission, from the first-th on.
    Tests { first: u32 },
    /// What one test counts below a node. Its id has 1 to 255 bytes of 21 to 7E.
    TestCounts { first: u32, id: Name, path: Name },
    /// The tests by what each adds to the ones before.
    Rank,
    /// To take a node out.
    Exclude { path: Name },
    /// To put a node back.
    Include { path: Name },
    /// The path of a bin.
    NameOf { bin: u32 },
    /// To end the session.
    Bye,
    /// To take the upload, whose SHA-256 this is, as the design's new text.
    Revise { digest: [u8; 32] },
    /// The bytes of the record that was admitted at this place, from 0, from an offset on.
    Fetch { place: u32, offset: u64 },
}

/// Why a body is not taken.
#[derive(Clone, Copy, Debug, PartialEq, Eq, Error)]
pub enum RequestFault {
    /// It is no message. This is the offset of the first field that is cut or out of its range, or of the first byte too many.
    #[error("the body is no message at {at}")]
    BadMessage { at: u32 },
    /// Memory ran out.
    #[error("out of memory")]
    Memory,
}
