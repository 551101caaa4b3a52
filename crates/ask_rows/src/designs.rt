//! The designs that texts declare.
ghost use Rattle.std.specs.Prelude.{◌≤◌, length};
ghost use Rattle.cov_ground.specs.Limits.{longest_design};

use cov_compile::{Compiled, compile};
use design_data::Design;
use std::alloc::Global;

/// The longest text of a design.
const LONGEST: usize = 1_048_576;

/// The design that a text declares.
pub fn design_of(alloc: Global, text: &str) -> Option<Design> {
    let bytes = text.as_bytes();
    if bytes.len() > LONGEST {
        return None;
    }
    compile(alloc, bytes).ok()
}

/// A text with the design that it declares.
pub fn compiled_of(alloc: Global, text: &[u8]) -> Option<Compiled> {
    if text.len() > LONGEST {
        return None;
    }
    Compiled::of(alloc, text).ok()
}
