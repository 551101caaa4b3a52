//! What a store keeps of an entry and of a test.
use cov_tree::Name;
use design_data::Design;
use sampler::EncodedRecord;
use std::sync::Arc;
use tally::Tally;

/// A change that shares what it names.
#[derive(Drop)]
pub enum HeldEvent {
    /// A record that became a test.
    Admit(Arc<EncodedRecord>),
    /// The path of a node that was taken out of coverage.
    Exclude(Arc<Name>),
    /// The path of a node that was put back.
    Include(Arc<Name>),
    /// A text with its design.
    Revise(Name, Arc<Design>),
}

/// A change with the number of its caller.
#[derive(Drop)]
pub struct Held {
    /// The caller's number.
    pub caller: u32,
    /// The change.
    pub event: HeldEvent,
}

/// A test that is kept.
#[derive(Drop)]
pub struct Kept {
    /// The point after its admission.
    pub point: u64,
    /// Its record as the record's bytes with their digest, as they were handed in.
    pub rec: Arc<EncodedRecord>,
    /// Its tally under the design of now.
    pub tally: Arc<Tally>,
}
