//! Street: meaning.
//!
//! Crosses: the points that they name, their declared bins with selections, and their automatic bins (IEEE 1800-2017,
//! 19.6).
#![tactic(auto)]

mod automatic;
mod axes;
mod declared;
pub mod laws;
mod left;
mod selections;

pub use automatic::cross_bins;
pub use axes::{Axis, Named, check_products, name_axes, own_names};
pub use declared::Walked;
pub use selections::{Crossed, selection};
