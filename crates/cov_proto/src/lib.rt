//! Street: wire.
//!
//! Frames and messages between a store and those that speak with it.
#![tactic(auto)]

mod frames;
pub mod laws;
mod replies;
mod reply_reading;
mod reply_writing;
mod rows;

pub use frames::{FrameStep, LONGEST_BODY, next_frame};
pub use replies::{Body, Reply};
pub use reply_reading::read_reply;
pub use reply_writing::write_reply;
pub use request_forms::{Request, RequestFault, read_request, write_request};
