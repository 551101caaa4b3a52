//! What a history consists of.
use cov_tree::Name;
use design_data::Design;
use record_codec::Record;

/// A text with the design that it declares.
#[derive(Drop)]
pub struct Revision {
    pub text: Name,
    pub design: Design,
}

/// A change of a store.
#[derive(Drop)]
pub enum Event {
    /// A record is admitted as a test.
    Admit(Record),
    /// The node that this path finds is taken out of coverage.
    Exclude(Name),
    /// It is put back.
    Include(Name),
    /// The design is that of another text from here on.
    Revise(Revision),
    /// The history ends.
    Stop,
}

/// A change with the number of the caller who made it.
#[derive(Drop)]
pub struct Entry {
    pub caller: u32,
    pub event: Event,
}
