//! Street: meaning.
//!
//! What stands round the items of a design: types and enumerations (IEEE 1800-2017, 6.19), variables, the formals of an
//! instance and the arguments of its sample function (19.3, 19.8.1), and options (19.7). One definition and one function
//! each, in the same order of checks.
#![tactic(auto)]

mod constants;
mod enumerations;
mod formals;
pub mod laws;
mod numbers;
mod options;
mod outside;
mod refs;
mod samples;
mod shapes;
mod variables;

pub use constants::Constants;
pub use enumerations::add_enumeration;
pub use formals::{Formals, fits, read_formals, walk_formals};
pub use numbers::Numbers;
pub use options::{cross_defaults, point_defaults, read_options, remarks, set_options};
pub use outside::{Enumeration, Outside, Shape};
pub use refs::enumeration_of;
pub use shapes::{has_width, read_shape};
pub use variables::add_variable;
