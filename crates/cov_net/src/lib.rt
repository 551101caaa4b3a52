//! Street: program.
//!
//! The trusted edge: files of the system, the standard streams and the network as the traits of `cov_base`. They tell no
//! content, and count their failures.
#![tactic(auto)]

mod again;
mod calls;
mod shelf;
mod sockets;
mod streams;

pub use calls::{AcceptCall, Disk, ReadCall, WriteCall};
pub use shelf::FileShelf;
pub use sockets::{TcpDoor, TcpLink};
pub use streams::{StdSink, StdSource};
