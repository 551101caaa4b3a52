//! The outside in memory. The `Mem` ones fail at the calls that they are told to, the `Sure` ones never.
pub(crate) mod door;
pub(crate) mod link;
pub(crate) mod plan;
pub(crate) mod shelf;
pub(crate) mod sink;
pub(crate) mod source;
