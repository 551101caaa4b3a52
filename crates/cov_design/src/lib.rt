//! Street: meaning.
//!
//! From the tree of a design text to the design (IEEE 1800-2017, clause 19): the definition is a walk through the
//! constructs that stops at the first fault, and each construct has one definition and one function.
#![tactic(auto)]

mod elaboration;
mod events;
mod groups;
mod instances;
mod known;
pub mod laws;
mod walk;

pub use elab_base::{ElabFault, ElabKind};
pub use elaboration::elaborate;
pub use events::event_scope;
