//! What a point remembers from one sample to the next.

use trans_auto::{Step, TransState};
use word_table::Recent;

/// What a point remembers from one sample to the next, and room for what a sample meets. Each record has its own.
pub struct PointState {
    /// Whether a value came before.
    pub(crate) begun: bool,
    /// Where the trace stands in each automaton of the plan.
    pub(crate) runs: Vec<TransState>,
    /// Where it stands in the automaton of the ignored and illegal sequences.
    pub(crate) others: TransState,
    /// The last values, where the plan has words.
    pub(crate) ending: Ending,
    /// What the latest sample does to the sequences that take windows away.
    pub(crate) steps: Steps,
    /// The places of the bins whose rule the latest sample meets.
    pub(crate) met: Vec<u32>,
}

impl Drop for PointState {
    fn drop(self) {
        let PointState {
            begun: _,
            runs: _,
            others: _,
            ending: _,
            steps: _,
            met: _,
        } = self;
    }
}

/// The last values of a trace, and room for the words that it ends with.
#[derive(Drop)]
pub struct Ending {
    pub(crate) recent: Recent,
    pub(crate) hits: Vec<u32>,
}

/// What a sample does to the sequences that take windows away.
#[derive(Drop)]
pub struct Steps {
    pub(crate) covering: Step,
    pub(crate) ignoring: Step,
    pub(crate) none: Step,
}
