//! Street: ground.
//!
//! Numbers and sets of numbers; and what reaches outside, as traits, and each of them in memory.
//!
//! A trait's ghost members say what an object tells (its bytes or files, or nothing of them) and how often it has
//! failed. A failure is answered only where that count rose in the call.
#![tactic(auto)]

mod book;
mod door;
mod failed;
mod gate;
mod int;
mod link;
mod memory;
mod numbers;
mod sets;
mod shelf;
mod sink;
mod source;

pub use book::Book;
pub use cov_ground::Memory;
pub use door::Door;
pub use failed::Failed;
pub use gate::{Gate, OpenGate};
pub use int::Int;
pub use link::{Link, Pair};
pub use memory::door::MemDoor;
pub use memory::link::{MemLink, SureLink};
pub use memory::shelf::{MemShelf, SureShelf};
pub use memory::sink::{MemSink, SureSink};
pub use memory::source::{MemSource, SureSource};
pub use numbers::{highest_of, lowest_of, ones, power_of_two, read_bits, size_of};
pub use sets::ValueSet;
pub use shelf::{Shelf, ShelfRefusal};
pub use sink::Sink;
pub use source::Source;
