//! Integer literals.

/// The meaning of an integer literal (IEEE 1800-2017, 5.7.1).
#[derive(Clone, Copy, Debug, PartialEq, Eq)]
pub struct Literal {
    /// How many bits it has, 1 to 64.
    pub width: u8,
    /// Whether its text gives the size.
    pub sized: bool,
    /// Whether its bits are read in two's complement.
    pub signed: bool,
    /// Its bits, below 2 to the width. A free bit is 0 here.
    pub bits: u64,
    /// The bits that are `x`, `z` or `?`, below 2 to the width.
    pub free: u64,
}
