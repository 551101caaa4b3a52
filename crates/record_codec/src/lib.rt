//! Street: sampling.
//!
//! Records of a simulation as bytes: which signals were set to what, and when each instance was sampled.
#![tactic(auto)]

mod builder;
mod decoding;
mod encoding;
mod events;
mod fault;
mod fields;
mod keeping;
pub mod laws;
mod limits;
mod making;
mod reading;
mod record;
mod rows;
mod tables;

pub use builder::RecordBuilder;
pub use decoding::decode;
pub use encoding::encode;
pub use fault::RecordFault;
pub use limits::LONGEST_ID;
pub use making::{MakeFault, PushFault, StartFault, checked_record};
pub use record::{ArgRow, Event, Fields, InstRow, Record, SignalRow, Start};
