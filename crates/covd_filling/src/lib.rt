//! Street: program.
//!
//! A store that takes in the records of files or of a generator, one after the other, and what is left out of it.
#![tactic(auto)]

mod admitting;
mod batches;
mod filling;
mod leaving;
mod storing;

pub use leaving::Left;
pub use storing::stored;
