//! What records are prepared under, and texts compared with.
ghost use Rattle.std.specs.Prelude.{◌≡◌, ◌++◌, IfOk, OnOk, map, option_map, option_to_list, slice_get};
ghost use Rattle.std.specs.Arc.{arc_value};
ghost use Rattle.cov_history.specs.History.{contents, tests_of};
ghost use Rattle.store_core.specs.Bases.{IsBasis};
ghost use Rattle.merge_store.specs.Stores.{opening_of, entries_of};

use crate::Store;
use cov_base::Memory;
use cov_tree::List;
use sampler::EncodedRecord;
use std::sync::Arc;
use store_core::Basis;

impl Store {
    /// One record more, of the test at a place.
    fn push_record(&self, list: &mut Vec<Arc<EncodedRecord>>, place: usize) -> Result<(), Memory>
        ensures { OnOk result (map arc_value list.new.items ≡ map arc_value list.old.items ++ option_to_list (option_map (λ t. t.content) (slice_get (tests_of (entries_of self.now)) place))) }
    {
        if let Some(test) = self.test(place) {
            list.push(test.rec.clone()?)?;
        }
        Ok(())
    }

    /// The records of the tests, in order of admission.
    fn records(&self) -> Result<Vec<Arc<EncodedRecord>>, Memory>
        ensures { IfOk result (λ list. map arc_value list.items ≡ contents (entries_of self.now)) }
    {
        let mut list = Vec::new(self.alloc);
        for place in 0..self.test_count() {
            self.push_record(&mut list, place)?;
        }
        Ok(list)
    }

    /// The basis at its entries. Records and design are shared.
    pub fn basis(&self) -> Result<Basis, Memory>
        ensures { IfOk result (λ b. IsBasis (opening_of self.now) (entries_of self.now) b) }
    {
        let records = self.records()?;
        let design = self.sums.design.share()?;
        Ok(Basis {
            point: self.point(),
            design,
            records: List::of(records),
        })
    }
}
