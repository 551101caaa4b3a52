//! Street: ground.
//!
//! Parts of a page of HTML: figures, lines that open, rows, tables and sections.
#![tactic(auto)]

mod curve;
mod frame;
mod frames;
mod pieces;
mod rows;
mod standing;

pub use curve::{append_curve, append_point};
pub use frame::{HEAD, TAIL, append_back, append_front};
pub use frames::{begin_block, begin_section, begin_table, end_block, end_table, paragraph};
pub use pieces::{
    append_bar, append_digits, append_percent, append_ratio, figure_count, figure_ratio,
    figure_text, left_out, overall,
};
pub use rows::{bin_row, illegal_row, ranked_row, test_row};
pub use standing::{Standing, begin_details};
