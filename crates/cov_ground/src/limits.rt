//! The limits of the product. Clauses cite the definitions of the same names in `specs/Limits.antt`.

/// Bytes of a design text.
pub const LONGEST_DESIGN: u64 = 1_048_576;

/// Bytes of a record.
pub const LONGEST_RECORD: u64 = 8_388_608;

/// Events of a record.
pub const MOST_EVENTS: u32 = 1_048_576;

/// Signals of a design.
pub const MOST_SIGNALS: usize = 4_096;

/// Instances of a design.
pub const MOST_INSTANCES: usize = 1_024;

/// Items of all instances of a design.
pub const MOST_ITEMS: usize = 262_144;

/// Arguments of a group's sample function.
pub const MOST_ARGUMENTS: usize = 16;

/// Bins of an item.
pub const MOST_BINS: usize = 65_536;

/// Bins of a design.
pub const MOST_DESIGN_BINS: u32 = 262_144;

/// Intervals of a set.
pub const MOST_RANGES: u64 = 65_536;

/// Intervals of all sets of a design.
pub const MOST_DESIGN_RANGES: u64 = 4_194_304;

/// Values that a bin's `with` filters.
pub const MOST_VALUES: u64 = 1_048_576;

/// Points of a cross.
pub const MOST_POINTS: usize = 16;

/// Products of a cross.
pub const MOST_PRODUCTS: u64 = 1_048_576;

/// Cells of a transition bin, and of all sequences of a point that take away.
pub const MOST_CELLS: u64 = 120;

/// Bits of a type.
pub const MOST_BITS: u8 = 64;

/// Bytes of a name.
pub const LONGEST_NAME: u16 = 1_024;

/// Tests of a store.
pub const MOST_TESTS: u64 = 4_096;

/// Bytes of the records of a store.
pub const MOST_BYTES: u64 = 268_435_456;

/// Entries of the tallies of a store.
pub const MOST_ENTRIES: u64 = 16_777_216;

/// Entries of a history, with the paths that are out.
pub const MOST_HISTORY: u64 = 1_048_576;

/// Rows of bins in an answer.
pub const MOST_ROWS: usize = 65_536;

/// Rows of tests in an answer.
pub const MOST_TEST_ROWS: usize = 1_024;

/// Bytes of a record or of a path in an answer.
pub const LONGEST_CHUNK: usize = 1_048_576;
