//! Street: program.
//!
//! The commands over one design and one record: `check`, `tables`, `count` and `record`, with what they print and how files are loaded;
//! and where the records of a store come from.
#![tactic(auto)]

pub mod ahead;
pub mod answer;
pub mod count;
pub mod finding;
pub mod forms;
mod lines;
pub mod listing;
pub mod loading;
mod numbers;
pub mod options;
pub mod origins;
pub mod record;
mod status;
pub mod stop;
mod tables;
pub mod texts;
pub mod unadmitted;

pub use cov_compile::{CompileFault, Compiled, Refusal, compile, refusal_of};
pub use record_maker::{MakeFault, make_record};
pub use status::Status;
