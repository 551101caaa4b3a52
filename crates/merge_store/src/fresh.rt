//! A store without entries.
ghost use Rattle.std.specs.Prelude.{◌≡◌, [], IfOk, length};
ghost use Rattle.std.specs.Arc.{arc_value};
ghost use Rattle.merge_store.specs.Stores.{opening_of, entries_of};

use crate::Store;
use cov_base::Memory;
use design_data::Design;
use indexmap::IndexMap;
use std::alloc::Global;
use std::sync::Arc;
use store_sums::Sums;

impl Store {
    /// A store of a design, without entries.
    pub fn new(alloc: Global, design: Arc<Design>) -> Result<Store, Memory>
        ensures opening { IfOk result (λ s. opening_of s ≡ arc_value design) }
        ensures entries { IfOk result (λ s. entries_of s ≡ []) }
    {
        let sums = Sums::of(alloc, &design)?;
        Ok(Store {
            alloc,
            opening: design,
            sums,
            entries: Vec::new(alloc),
            tests: IndexMap::new(alloc),
            outs: 0,
            bytes: 0,
            rows: 0,
            revised: 0,
        })
    }

    /// How many entries it has.
    pub fn point(&self) -> u64
        ensures { result ≡ length (entries_of self.now) }
    {
        self.entries.as_slice().len() as u64
    }
}
