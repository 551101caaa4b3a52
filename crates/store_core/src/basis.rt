//! What a record is prepared under, and a text's design compared with.
use cov_tree::List;
use sampler::{EncodedRecord, Planned};
use std::sync::Arc;

/// The design and the tests at a point of a history.
#[derive(Drop)]
pub struct Basis {
    /// How many entries the history had.
    pub point: u64,
    /// Its design then, with what is worked out of it once.
    pub design: Planned,
    /// The records of its tests then, in order of admission, each as its bytes.
    pub records: List<Arc<EncodedRecord>>,
}
