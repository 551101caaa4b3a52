//! The store.
ghost use Rattle.std.specs.Prelude.{◌≡◌, ◌+◌, ◌≤◌, map, option_map, vec_len, vec_capacity};
ghost use Rattle.std.specs.Arc.{arc_value};
ghost use Rattle.std.proofs.Props.{props};
ghost use Rattle.design_data.specs.Limits.{IsDesign-prop};
ghost use Rattle.record_codec.specs.Limits.{IsWithinLimits-prop};
ghost use Rattle.ucis_model.specs.Nodes.{nodes_of};
ghost use Rattle.store_core.specs.Histories.{IsDeclared-prop};
ghost use Rattle.store_parts.specs.Keeps.{Keeps};
ghost use Rattle.store_parts.specs.Words.{entry_of, test_of};

use design_data::Design;
use indexmap::IndexMap;
use std::alloc::Global;
use std::sync::Arc;
use store_parts::{Held, Kept};
use store_sums::Sums;

/// A design and the history over it. Contracts see the design that it was made with and the list of entries.
pub struct Store {
    pub(crate) alloc: Global,
    pub(crate) opening: Arc<Design>,
    /// The design of now with the counts of its bins and with the path of each node that is out. The path that a later
    /// Include puts into its entry is this one.
    pub(crate) sums: Sums,
    pub(crate) entries: Vec<Held>,
    pub(crate) tests: IndexMap<Vec<u8>, Kept>,
    pub(crate) outs: u64,
    /// Kept bytes.
    pub(crate) bytes: u64,
    /// Kept entries of tallies.
    pub(crate) rows: u64,
    /// The point after the last revision, and 0 where there is none.
    pub(crate) revised: u64,
    ghost keeps: { Keeps (arc_value opening) sums.design (nodes_of sums.design)
        (map entry_of entries.items) (map (λ e. (e.0.items, test_of e.1)) tests.entries)
        (map (λ e. arc_value e.1.tally) tests.entries) sums.counts.items
        (map (λ p. option_map arc_value p) sums.out.items) outs bytes rows revised } by { Prim.hlevel (props, IsWithinLimits-prop, IsDesign-prop, IsDeclared-prop) },
    ghost room: { vec_len entries + outs ≤ vec_capacity entries },
}

impl Drop for Store {
    fn drop(self) {
        let Store {
            alloc: _,
            opening: _,
            sums: _,
            entries: _,
            tests: _,
            outs: _,
            bytes: _,
            rows: _,
            revised: _,
        } = self;
    }
}
