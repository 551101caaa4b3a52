//! Street: threads.
//!
//! One history behind a lock, served to many callers: each connection is a session over the port of a seat.
#![tactic(auto)]

mod port;
mod serving;
mod shared;
mod turns;

pub use cov_session::{Alone, Ended, session};
pub use port::SharedPort;
pub use serving::{serve_connection, serve_rounds};
pub use shared::Shared;
pub use store_core::Core;
