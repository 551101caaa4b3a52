//! A waiver.
use cov_tree::Name;

/// What leaves nodes of a design out of its coverage: a pattern of their paths, the reason, and by whom and when it was
/// decided.
#[derive(Drop)]
pub struct Waiver {
    /// At least one byte of printable ASCII; not the root's path.
    pub pattern: Name,
    /// At least one byte, no `"` and no control byte.
    pub reason: Name,
    /// No bytes where no name is given; else no blanks and no control bytes.
    pub by: Name,
    /// As YYYY-MM-DD; no bytes where no date is given.
    pub on: Name,
}
