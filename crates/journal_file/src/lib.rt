//! Street: ground.
//!
//! A journal in a file: what the file stands for, its items read one after another and held against their sums, and an item
//! that is put behind them.
#![tactic(auto)]

mod adding;
mod end;
mod entry;
mod fault;
mod header;
mod item;
pub mod laws;
mod looking;
mod opening;
mod sums;
mod taking;

pub use adding::{add, begin, is_empty};
pub use end::End;
pub use entry::Entry;
pub use fault::OpenFault;
pub use opening::{Opened, open};
pub use taking::take_next;
