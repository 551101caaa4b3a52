//! The bins of products that were hit before, where no table has them.
ghost use Rattle.std.specs.Prelude.{◌≡◌, ℕ, List, true, length, IfOk, OnOk};
ghost use Rattle.design_data.specs.declared.infos.BinInfo.{BinInfo};
ghost use Rattle.cross_sampler.specs.Numbers.{product_at};
ghost use Rattle.cross_sampler.specs.Plans.{bins_with};
ghost use Rattle.cross_sampler.specs.Known.{AreKnown};

use cov_base::Memory;
use design_data::BinInfo;
use std::alloc::Global;
use std::collections::HashMap;
use value_index::Rows;

/// The most products and bins of products that are kept together.
const MOST_KNOWN: usize = 0x10_0000;

/// The bins of products that were hit before.
#[derive(Drop)]
pub struct Known {
    /// Where the bins of a product stand among the rows, by its number.
    places: HashMap<u32, u32>,
    rows: Rows,
    /// How many rows there are.
    count: u32,
    /// How many products and bins of products may still be kept.
    room: usize,
}

impl Known {
    /// Nothing is known. It takes no memory.
    pub(crate) fn new(alloc: Global) -> Known
        ensures { (sizes : List ℕ) (bins : List BinInfo) → AreKnown sizes bins result }
    {
        Known {
            places: HashMap::new(alloc),
            rows: Rows::new(alloc),
            count: 0,
            room: MOST_KNOWN,
        }
    }

    /// Puts the bins of the product with this number into `hit`, if they are known, and says whether they are.
    pub(crate) fn recall(
        &self,
        bins: &[BinInfo],
        sizes: &[u32],
        number: u32,
        hit: &mut Vec<u32>,
    ) -> Result<bool, Memory>
        requires known { AreKnown sizes.now bins.now self.now }
        ensures { IfOk result (λ found. found ≡ true → hit.new.items ≡ bins_with bins.now (product_at sizes.now number) (length bins.now)) }
    {
        let _ = bins;
        let _ = sizes;
        match self.places.get(&number) {
            Some(place) => {
                hit.clear();
                hit.extend_from_slice(self.rows.row(*place as usize))?;
                Ok(true)
            }
            None => Ok(false),
        }
    }

    /// Keeps the bins of the product with this number, as long as there is room.
    pub(crate) fn keep(
        &mut self,
        bins: &[BinInfo],
        sizes: &[u32],
        number: u32,
        hit: &[u32],
    ) -> Result<(), Memory>
        requires known { AreKnown sizes.now bins.now self.old }
        requires hit { hit.now ≡ bins_with bins.now (product_at sizes.now number) (length bins.now) }
        ensures { OnOk result (AreKnown sizes.now bins.now self.new) }
    {
        let _ = bins;
        let _ = sizes;
        let Some(room) = self.room.checked_sub(hit.len().saturating_add(1)) else {
            return Ok(());
        };
        let Some(count) = self.count.checked_add(1) else {
            return Ok(());
        };
        self.rows.push(hit)?;
        self.places.insert(number, self.count)?;
        self.count = count;
        self.room = room;
        Ok(())
    }
}
