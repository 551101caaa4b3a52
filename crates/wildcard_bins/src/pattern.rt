//! A pattern of bits.

use bit_width::Width;

/// A pattern of bits: a literal of a wildcard bin. It stands for the numbers of its width and sign that have its bits
/// at each place that isn't free.
#[derive(Clone, Copy, PartialEq, Eq)]
pub struct Pattern {
    /// The number of places. What `bits` and `free` have at further places counts for nothing.
    pub width: Width,
    /// Whether the numbers are signed, in two's complement.
    pub signed: bool,
    /// The bit of each place, the lowest place first. At a free place it counts for nothing.
    pub bits: u64,
    /// 1 at each place where a number may have either bit.
    pub free: u64,
}
