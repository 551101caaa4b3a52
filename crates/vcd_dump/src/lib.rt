//! Street: sampling.
//!
//! Value change dumps (IEEE 1800-2017, 21.7): what their text writes, or its first fault, and the walk along their steps.
#![tactic(auto)]

mod body;
mod dump;
mod fault;
mod header;
mod kept;
mod numbers;
mod packed;
mod packing;
mod reading;
mod scopes;
mod steps;
mod values;
mod words;

pub use dump::{Bit4, Change, Dump, DumpStep, DumpVar};
pub use fault::DumpFault;
pub use header::Code;
pub use packing::Item;
pub use reading::read_dump;
pub use steps::{Steps, first_time, next_change, next_time};
