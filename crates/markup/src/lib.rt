//! Street: ground.
//!
//! Texts of XML and HTML: elements, attributes and escaped text, written at the end of a text.
#![tactic(auto)]

mod escaping;
pub mod laws;
mod tags;

pub use escaping::append_escaped;
pub use tags::{begin_tag, close, end_empty, end_line, end_tag, integer, number, truth, value};
