//! What a cross keeps along the samples of its instance.
ghost use Rattle.std.specs.Prelude.{◌≡◌, ℕ, List, ◌<◌, ◌≤◌, ◌+◌, ◌-◌, ◌^◌, length, IfOk};
ghost use Rattle.std.specs.List.{All};
ghost use Rattle.design_data.specs.declared.infos.BinInfo.{BinInfo};
ghost use Rattle.cross_sampler.specs.Known.{AreKnown};

use crate::known::Known;
use cov_base::Memory;
use std::alloc::Global;

/// What a cross keeps along the samples of its instance.
pub struct CrossState {
    /// How many samples there were.
    pub samples: u32,
    /// For each bin the number of the last sample at which one of its products was hit, counted from 1; 0 before.
    pub stamps: Vec<u32>,
    /// Room for the numbers of the products that are hit at a sample, and for those on the way to them.
    pub numbers: Vec<u32>,
    pub spare: Vec<u32>,
    /// Room for a product and its bins.
    pub product: Vec<u32>,
    pub bins: Vec<u32>,
    /// The bins of products that were hit before, where no table has them.
    pub known: Known,
}

impl Drop for CrossState {
    fn drop(self) {
        let CrossState {
            samples: _,
            stamps: _,
            numbers: _,
            spare: _,
            product: _,
            bins: _,
            known: _,
        } = self;
    }
}

impl CrossState {
    /// What a cross with so many bins keeps before the first sample.
    pub fn new(alloc: Global, bins: usize) -> Result<CrossState, Memory>
        ensures samples { IfOk result (λ state. state.samples ≡ 0) }
        ensures stamps { IfOk result (λ state. length state.stamps.items ≡ bins) }
        ensures marks { IfOk result (λ state. All (λ stamp. stamp ≤ 0) state.stamps.items) }
        ensures known { IfOk result (λ state. (sizes : List ℕ) (bins : List BinInfo) → AreKnown sizes bins state.known) }
    {
        Ok(CrossState {
            samples: 0,
            stamps: Vec::from_elem(alloc, 0, bins)?,
            numbers: Vec::new(alloc),
            spare: Vec::new(alloc),
            product: Vec::new(alloc),
            bins: Vec::new(alloc),
            known: Known::new(alloc),
        })
    }

    /// Begins a sample.
    pub(crate) fn begin(&mut self)
        ensures samples { self.old.samples < 2 ^ 32 - 1 → self.new.samples ≡ self.old.samples + 1 }
        ensures stamps { self.new.stamps.items ≡ self.old.stamps.items }
        ensures known { self.new.known ≡ self.old.known }
    {
        self.samples = self.samples.saturating_add(1);
    }
}
