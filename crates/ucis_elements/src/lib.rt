//! Street: nodes and answers.
//!
//! Bins, points, crosses and instances of a design as elements of the interchange format of UCIS 1.0.
#![tactic(auto)]

mod bins;
mod heads;
mod options;
mod patterns;
mod points;
mod rules;
mod texts;
mod words;

pub use bins::{append_cross_bin, append_point_bin};
pub use heads::{begin_cross, begin_instance};
pub use points::{Names, begin_point};
pub use words::{append_named, append_source_id, append_user_attr};
