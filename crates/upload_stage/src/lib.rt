//! Street: wire.
//!
//! An upload gathered from pieces in any order, and handed over only whole and with the digest that was announced.
#![tactic(auto)]

mod fault;
mod held;
mod marks;
mod stage;

pub use fault::StageFault;
pub use stage::Stage;
