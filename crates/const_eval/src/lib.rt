//! Street: meaning.
//!
//! Expressions and their values (IEEE 1800-2017, clause 11): types, names with what they stand for, and evaluation.
#![tactic(auto)]

mod binding;
mod bits;
mod bound;
mod fault;
mod form;
pub mod laws;
mod meaning;
mod operations;
mod sameness;
mod scope;
mod shifts;
mod signals;
mod typs;
mod values;

pub use binding::{bind, bind_item, constant, place};
pub use bits::{cut_to, number_of};
pub use bound::Bound;
pub use fault::BindFault;
pub use form::{Form, Look};
pub use meaning::{ITEM, Meaning};
pub use scope::Scope;
pub use signals::first_signal;
pub use typs::Typ;
pub use values::{eval, typ};
