//! Street: store.
//!
//! What a store keeps of an entry, of a test and of another design, what its calls say, and how what they say is an answer; and
//! what each change does to what is kept.
#![tactic(auto)]

mod faults;
mod held;
mod judged;
mod kept;
mod remaking;
mod room;
mod serving;

pub use faults::{AdmitFault, Admitted, ExcludeFault, IncludeFault, QueryFault, ReviseFault};
pub use held::{Held, HeldEvent, Kept};
pub use judged::Judged;
pub use kept::add_test;
pub use remaking::{Ready, Remade, put_found, set_tallies};
pub use room::put;
pub use serving::{
    of_admit, of_chunk, of_coverage, of_exclude, of_illegal, of_include, of_name, of_rank,
    of_revise, of_rows, of_tests,
};
