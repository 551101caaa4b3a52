//! A row of a ranking.

/// A test that a ranking takes.
#[derive(Clone, Copy, Debug, PartialEq, Eq)]
pub struct Ranked {
    /// The test's index among those that are ranked.
    pub test: u32,
    /// By how much the test raises the worth of those that are taken before it.
    pub gain: u64,
}
