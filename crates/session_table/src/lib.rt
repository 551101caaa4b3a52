//! Street: wire.
//!
//! What a session answers to each body: the port through which it takes turns, and the table of its replies.
#![tactic(auto)]

mod alone;
mod bodies;
mod finding;
mod port;
mod tables;
mod talk;
mod turning;

pub use alone::Alone;
pub use bodies::{Said, answer};
pub use port::Port;
pub use talk::Talk;
