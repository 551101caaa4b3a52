//! Street: worked rows.
//!
//! The asks that lines of rows name, with the designs and records in them, random ones among them, and answers as text. `store_rows` has the rows,
//! and says what each of them means.
#![tactic(auto)]

mod asks;
mod designs;
mod dice;
mod random;
mod records;
mod words;
mod writing;

pub use asks::ask_of;
pub use designs::{compiled_of, design_of};
pub use dice::Dice;
pub use random::{Paths, random_line, random_text};
pub use words::{number_of, put, say, say_count, say_number, small_of, split};
pub use writing::text_of;
