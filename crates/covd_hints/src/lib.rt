//! Street: program.
//!
//! Hints for a person, on standard error. What a command prints, and its status, stand without them.
#![tactic(auto)]

mod admission_hints;
mod commands;
mod design_hints;
mod dump_hints;
mod file_hints;
mod hints;
mod kind_hints;
mod record_hints;
mod shape_hints;
mod source_words;

pub use hints::{print_address_hint, print_hint};
