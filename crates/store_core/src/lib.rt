//! Street: store.
//!
//! What serves asks over one history: the asks as callers make them, a basis, a text for which the tests of a basis are
//! counted anew, and the trait.
#![tactic(auto)]

mod asks;
mod basis;
mod counting;
mod one_core;
mod parts;
mod rebinning;

pub use asks::Ask;
pub use basis::Basis;
pub use one_core::Core;
pub use rebinning::{Parts, Rebinned, rebin};
