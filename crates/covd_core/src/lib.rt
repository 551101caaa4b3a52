//! Street: program.
//!
//! What the program does with its words: `run` over any shelf of files and any sink.
#![tactic(auto)]

mod printing;
mod report;
mod running;
mod session;
mod starting;
mod waiving;
mod writing;

pub use cov_serve::{ServeWords, serve_words};
pub use covd_commands::options::{Options, options_of};
pub use covd_commands::record::{DumpRefusal, LONGEST_DUMP, dump_fault, dump_refusal_of};
pub use covd_commands::{
    CompileFault, Compiled, MakeFault, Refusal, Status, compile, make_record, refusal_of,
};
pub use running::run;
pub use starting::serve_start;
pub use waiving::LONGEST_WAIVERS;
