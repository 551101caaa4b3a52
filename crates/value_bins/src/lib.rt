//! Street: meaning.
//!
//! Bins of listed values (IEEE 1800-2017, 19.5.1): the numbers of a range list spread over so many bins, one bin for
//! each, or filtered.
#![tactic(auto)]

mod arrays;
mod distinct;
mod elems;
mod faults;
mod filter;
mod ranges;
mod within;

pub use arrays::spread;
pub use distinct::singles;
pub use elems::Elems;
pub use faults::{FilterFault, SpreadFault};
pub use filter::filter_with;
