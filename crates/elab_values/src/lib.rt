//! Street: meaning.
//!
//! What the bins of coverpoints and crosses are made of: the numbers of a point, range lists of them, and bins on the way
//! (IEEE 1800-2017, 19.5.1, 19.5.4 and 19.5.7).
#![tactic(auto)]

mod domain;
mod elements;
mod made;
mod ranges;
mod words;

pub use domain::{Constant, Domain, domain_of, domain_of_constants};
pub use elements::{Listed, element_pattern, elements_of};
pub use made::{ItemDecls, Made, PointBins, Settings};
pub use ranges::{numbers, numbers_listed};
pub use words::{is_array, kind_of};
