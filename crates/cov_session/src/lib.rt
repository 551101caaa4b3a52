//! Street: wire.
//!
//! A session: the frames of a stream answered one after the other, each request by the port of one caller.
#![tactic(auto)]

mod ended;
mod inbox;
mod serving;

pub use ended::Ended;
pub use serving::session;
pub use session_table::{Alone, Port};
