//! Street: meaning.
//!
//! From the bytes of a design text to its design: tokens, syntax tree, elaboration.
#![tactic(auto)]

mod compiled;
mod compiling;
mod fault;
pub mod laws;
mod refusals;

pub use compiled::Compiled;
pub use compiling::compile;
pub use cov_design::elaborate;
pub use fault::CompileFault;
pub use refusals::{Refusal, refusal_of};
