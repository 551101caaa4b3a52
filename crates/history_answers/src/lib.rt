//! Street: nodes and answers.
//!
//! The answer to every ask at a history, worked out anew from its definition: each test is counted again bin by bin, so it
//! serves small histories alone, and what keeps a history otherwise can be compared with it.
#![tactic(auto)]

mod admitting;
mod amounts;
mod answering;
mod bins;
mod changes;
mod keeping;
mod plain;
mod queries;
mod ranks;
mod rows;
mod serving;
mod since;
mod suiting;

pub use answering::{answer_by_definition, entry_of};
pub use changes::{admit_answer, exclude_answer, include_answer, revise_answer};
pub use cov_history::coverage_answer;
pub use plain::PlainStore;
pub use queries::{
    counts_answer, fetch_answer, hello_answer, illegal_answer, name_answer, test_counts_answer,
    tests_answer,
};
pub use ranks::rank_answer;
pub use suiting::{fits, same_tables};
