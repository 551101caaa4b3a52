//! Street: wire.
//!
//! Requests and their fields, read from bytes with the place of the first fault, and written.
#![tactic(auto)]

pub mod fault;
pub mod fields;
pub mod laws;
mod request_reading;
mod request_writing;
mod requests;
pub mod writing;

pub use request_reading::read_request;
pub use request_writing::{digest_size, write_request};
pub use requests::{Request, RequestFault};
