//! Street: sampling.
//!
//! Records of tests that a generator makes: values for the signals of a design, drawn one after the other.
#![tactic(auto)]

mod drawing;
mod making;
mod pushing;
mod start;

pub use making::make_record;
pub use record_codec::MakeFault;
