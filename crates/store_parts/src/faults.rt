//! What a store answers to a change, and why it refuses one.
use thiserror::Error;
use ucis_model::Which;

/// What became of a record that isn't refused.
#[derive(Clone, Copy, PartialEq, Eq)]
pub enum Admitted {
    /// It is a test now; the point is that after its admission.
    New { point: u64 },
    /// It was there; the point is that after its first admission.
    Here { point: u64 },
}

/// Why a record isn't admitted.
#[derive(Clone, Copy, Debug, PartialEq, Eq, Error)]
pub enum AdmitFault {
    /// Its id is kept with other content, of this SHA-256.
    #[error("the id is taken")]
    IdTaken { digest: [u8; 32] },
    /// The design was revised since this point.
    #[error("the design was revised since point {since}")]
    Moved { since: u64 },
    /// A limit would be passed: the amount now, and the one afterwards.
    #[error("the store is full: {have} now, {want} afterwards")]
    Full { which: Which, have: u64, want: u64 },
    /// Memory ran out.
    #[error("memory ran out")]
    Memory,
}

/// Why a node isn't taken out of coverage.
#[derive(Clone, Copy, Debug, PartialEq, Eq, Error)]
pub enum ExcludeFault {
    /// No node has the path.
    #[error("no node has this path")]
    NoSuchPath,
    /// The path is out already.
    #[error("the node is excluded already")]
    AlreadyExcluded,
    /// The limit of the history would be passed: the amount now, and the one afterwards.
    #[error("the store is full: {have} now, {want} afterwards")]
    Full { which: Which, have: u64, want: u64 },
    /// Memory ran out.
    #[error("memory ran out")]
    Memory,
}

/// Why a node isn't put back.
#[derive(Clone, Copy, Debug, PartialEq, Eq, Error)]
pub enum IncludeFault {
    /// No node has the path.
    #[error("no node has this path")]
    NoSuchPath,
    /// The path isn't out.
    #[error("the node is not excluded")]
    NotExcluded,
}

/// Why the design of another text isn't taken.
#[derive(Clone, Copy, Debug, PartialEq, Eq, Error)]
pub enum ReviseFault {
    /// A test was admitted, or the design revised, since this point.
    #[error("the store has changed since point {since}")]
    Moved { since: u64 },
    /// A limit would be passed: the amount now, and the one afterwards.
    #[error("the store is full: {have} now, {want} afterwards")]
    Full { which: Which, have: u64, want: u64 },
    /// Memory ran out.
    #[error("memory ran out")]
    Memory,
}

/// Why a query isn't answered.
#[derive(Clone, Copy, Debug, PartialEq, Eq, Error)]
pub enum QueryFault {
    /// No node has the path, or no bin the number.
    #[error("no node has this path")]
    NoSuchPath,
    /// No test has the id, or the place.
    #[error("no tests have this id or place")]
    NoSuchTest,
    /// Memory ran out.
    #[error("memory ran out")]
    Memory,
}
