//! Street: meaning.
//!
//! How many numbers of a range or of a set agree with a pattern of bits, counted place by place
//! (IEEE 1800-2017, 19.5.4).
#![tactic(auto)]

mod below;
mod counts;
mod halves;

pub use counts::{count_in, count_within};
