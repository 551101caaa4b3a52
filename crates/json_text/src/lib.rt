//! Street: ground.
//!
//! Texts of JSON (RFC 8259), written from their beginning to their end.
#![tactic(auto)]

mod characters;
pub mod laws;
mod writer;

pub use writer::JsonWriter;
