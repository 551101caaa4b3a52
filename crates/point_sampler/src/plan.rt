//! What is prepared of a point before its samples are counted. All records and threads share it.

use point_tables::{Entrance, Entry, Lookup, Machine, Questions, Removers};
use trans_auto::Watcher;
use word_table::PlacedWords;

/// What is prepared of a point: its tables are linear in its bins and their intervals.
pub struct PointPlan {
    /// One for each bin; none at all where each bin counts for coverage and has no guard.
    pub(crate) entries: Vec<Entry>,
    /// The automata of the transition bins that aren't known by a word, in order.
    pub(crate) machines: Vec<Machine>,
    /// For each of them the values with which its windows may begin.
    pub(crate) entrances: Vec<Entrance>,
    /// The words of the other transition bins, with the places of their bins.
    pub(crate) words: PlacedWords,
    /// The sequences that take windows away.
    pub(crate) removers: Removers,
    /// The automaton of the ignored and illegal sequences, which a default sequence doesn't count either.
    pub(crate) others: Watcher,
    /// The index of the bins of values, where there is one.
    pub(crate) lookup: Option<Lookup>,
    /// How the bins of values are asked where there is no index.
    pub(crate) questions: Questions,
    /// The places of the default sequences.
    pub(crate) sequences: Vec<u32>,
}

impl Drop for PointPlan {
    fn drop(self) {
        let PointPlan {
            entries: _,
            machines: _,
            entrances: _,
            words: _,
            removers: _,
            others: _,
            lookup: _,
            questions: _,
            sequences: _,
        } = self;
    }
}
