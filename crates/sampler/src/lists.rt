//! Lists of quick items, one behind the other in one list.
ghost use Rattle.std.specs.Prelude.{◌≡◌, ◌<◌, ◌++◌, ◌∷◌, [], length, slice_index_or, OnOk};

use cov_base::Memory;
use cov_tree::Shared;
use point_sampler::PointPlan;
use std::alloc::Global;
use std::marker::Model;

/// The most items that the list has: places in it take half a word.
const MOST_ITEMS: usize = 0xffff_ffff;

/// A point that is counted by its value and the index of its bins alone.
#[derive(Drop)]
pub struct QuickItem {
    /// The place of its expression among those of the walk.
    pub(crate) expr: u32,
    /// The number of its first bin.
    pub(crate) first_bin: u32,
    pub(crate) plan: Shared<PointPlan>,
}

/// Where the items of an instance stand.
#[derive(Clone, Copy)]
pub struct QuickPlace {
    from: u32,
    to: u32,
}

/// The quick items of each instance. They stand side by side in memory, since a sample of an instance reads nothing else of
/// it.
#[derive(Drop)]
pub struct QuickLists {
    places: Vec<QuickPlace>,
    items: Vec<QuickItem>,
}

impl Model for QuickLists {
    ghost use Rattle.std.specs.Prelude.{List};
    ghost use Rattle.sampler.specs.declared.lists.QuickItem.{QuickItem};
    ghost use Rattle.sampler.specs.Quick.{lists_of, AllStand};

    ghost Value = { List (List QuickItem) };

    ghost view = { λ lists. lists_of lists.items.items lists.places.items };

    ghost invariant = { λ lists. AllStand lists.items.items lists.places.items };
}

impl QuickLists {
    /// No lists.
    pub(crate) fn new(alloc: Global) -> QuickLists
        ensures { result ≡ [] }
    {
        QuickLists {
            places: Vec::new(alloc),
            items: Vec::new(alloc),
        }
    }

    /// Puts a list behind the others. There is no room where all lists have 2^32 items and more together.
    pub(crate) fn push(&mut self, list: Vec<QuickItem>) -> Result<(), Memory>
        ensures { OnOk result (self.new ≡ self.old ++ list.items ∷ []) }
    {
        let mut list = list;
        let from = self.items.len();
        self.items.append(&mut list)?;
        let to = self.items.len();
        if to > MOST_ITEMS {
            return Err(Memory);
        }
        self.places.push(QuickPlace {
            from: from as u32,
            to: to as u32,
        })?;
        Ok(())
    }

    /// The list that was put behind the others last.
    pub(crate) fn last(&self) -> &[QuickItem] {
        let count = self.places.len();
        if count == 0 {
            return &[];
        }
        self.list(count - 1)
    }

    /// The list at an index.
    #[inline(always)]
    pub(crate) fn list(&self, k: usize) -> &[QuickItem]
        requires { k < length self.now }
        ensures { result.now ≡ slice_index_or self.now k [] }
    {
        let place = self.places[k];
        &self.items[place.from as usize..place.to as usize]
    }
}
