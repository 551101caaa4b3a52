//! What a store is asked, and what it answers.
use cov_tree::{List, Name};
use design_data::BinKind;
use tally::Ranked;

/// What a node of the history is.
#[derive(Clone, Copy, PartialEq, Eq)]
pub enum HistoryKind {
    /// A test that was admitted.
    Test,
    /// Tests that were merged.
    Merge,
}

/// A test of the history.
#[derive(Drop)]
pub struct HistoryNode {
    pub kind: HistoryKind,
    /// The point of the history after its admission.
    pub point: u64,
    /// 0 OK, 1 WARNING, 2 ERROR, 3 FATAL.
    pub status: u8,
    pub seed: u64,
    pub time: u64,
    /// The SHA-256 of its record's bytes.
    pub digest: [u8; 32],
    pub id: Name,
    pub user: Name,
}

/// A bin with its count.
#[derive(Clone, Copy, PartialEq, Eq)]
pub struct CountRow {
    /// The number of the bin.
    pub bin: u32,
    pub kind: BinKind,
    /// Whether it, or a node above it, is excluded.
    pub excluded: bool,
    pub count: u64,
}

/// The coverage of a node.
#[derive(Clone, Copy, PartialEq, Eq)]
pub struct CoverRow {
    /// 0 to 1,000,000.
    pub millionths: u32,
    /// Whether its goal is met.
    pub met: bool,
    /// Whether it, or a node above it, is excluded.
    pub excluded: bool,
    /// How many of the bins are covered.
    pub covered: u32,
    /// The coverage bins under it that aren't excluded.
    pub bins: u32,
}

/// Which limit of a store is passed.
#[derive(Clone, Copy, Debug, PartialEq, Eq)]
pub enum Which {
    /// Tests.
    Tests,
    /// Kept bytes of records and of revising texts.
    Bytes,
    /// Kept entries of tallies.
    Entries,
    /// Entries of the history, with the paths that are out.
    History,
}

/// What a store answers.
#[derive(Drop)]
pub enum Answer {
    /// How many bins the design has.
    Welcome { bins: u32 },
    /// The record is admitted.
    New,
    /// The record was there; the point after its first admission.
    Here { first: u64 },
    /// How many bins there are, and the counts of some of them.
    Rows { total: u32, rows: List<CountRow> },
    CoverageIs(CoverRow),
    /// How many tests there are, and some of them.
    TestRows { total: u32, rows: List<HistoryNode> },
    RankRows(List<Ranked>),
    PathIs(Name),
    /// What was asked for is done.
    Changed,
    /// The history is only as long as this.
    Ahead { have: u64 },
    /// The test's id is kept with other content, of this SHA-256.
    IdTaken { digest: [u8; 32] },
    /// A limit is passed: the amount now, and the one afterwards.
    Full { which: Which, have: u64, want: u64 },
    NoSuchPath,
    AlreadyExcluded,
    NotExcluded,
    NoSuchTest,
    /// Memory ran out.
    Memory,
    /// The history has moved on since this point.
    Moved { since: u64 },
    /// The history has ended.
    Stopped,
    /// The length of a record's bytes, and some of them.
    Chunk { len: u64, bytes: Name },
}

/// An answer with the point of the history at which it holds.
#[derive(Drop)]
pub struct Answered {
    pub point: u64,
    pub answer: Answer,
}
