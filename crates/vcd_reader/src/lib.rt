//! Street: sampling.
//!
//! Records from value change dumps (IEEE 1800-2017, 21.7).
#![tactic(auto)]

mod events;
mod held;
pub mod laws;
mod making;
mod moments;
mod recording;
mod signals;
mod start;
mod walking;
mod watching;

pub use recording::record_of;
pub use vcd_dump::{Bit4, Change, Dump, DumpFault, DumpStep, DumpVar, Steps, read_dump};
