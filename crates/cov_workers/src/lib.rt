//! Street: threads.
//!
//! A store behind a lock, and the workers of its server: each serves the connections of one listener, one after another,
//! over a seat of its own.
#![tactic(auto)]

mod opening;
mod stores;
mod workers;

pub use cov_server::{Alone, Core, Ended, Shared, serve_connection, serve_rounds, session};
pub use merge_store::Store;
pub use opening::open;
pub use stores::serve_store;
pub use workers::serve_with;
