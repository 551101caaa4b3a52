//! Street: store.
//!
//! A store: tests that were admitted and nodes that are out of coverage, as one history over a design that may be revised, with
//! running sums.
#![tactic(auto)]

mod admit;
mod basis;
mod book;
mod changes;
mod fresh;
mod kept;
mod nodes;
mod queries;
mod remaking;
mod revise;
mod serve;
mod store;

pub use store::Store;
pub use store_parts::{AdmitFault, Admitted, ExcludeFault, IncludeFault, QueryFault, ReviseFault};
