//! Street: worked rows.
//!
//! What rows of whole commands and of sessions do: the files that they make, the commands that they run over these files or
//! those of the folder, and sessions over streams and seats. `covd_rows` has the rows, and says what each of them means.
#![tactic(auto)]

mod commands;
mod digits;
mod failing;
mod files;
mod keeping;
mod sessions;
mod words;

pub use commands::{command, real_command};
pub use covd_core::Status;
pub use failing::failing_command;
pub use files::{
    Files, change_record, keep_blanks, keep_record, take_design, take_dump, take_files, take_record,
};
pub use keeping::{keep_bytes, keep_digest};
pub use sessions::{Table, session};
pub use words::{say, split};
