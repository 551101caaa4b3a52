//! Street: meaning.
//!
//! A design as data: what is sampled, and which bins are counted (IEEE 1800-2017, clause 19). Contracts see each type
//! as the value itself.
#![tactic(auto)]

mod crosses;
mod design;
mod infos;
mod items;
mod left;
mod numbers;
mod rules;
mod testing;

pub use crosses::{has, products, sizes};
pub use design::Design;
pub use infos::{
    BinInfo, BinKind, BinRule, GroupInfo, InstInfo, ItemInfo, ItemShape, Remarks, Signal,
};
pub use numbers::ranges_of;
