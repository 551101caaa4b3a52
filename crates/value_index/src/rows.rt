//! Lists of bins in one flat list.
ghost use Rattle.std.specs.Prelude.{◌≡◌, ◌<◌, ◌++◌, ◌∷◌, [], length, slice_index_or, is_ok, if◌then◌else◌, OnOk, OnErr, IfOk, ◌≤◌};

use cov_ground::Memory;
use std::alloc::Global;
use std::marker::Model;

/// The most numbers that the flat list has: places in it take half a word.
const MOST_NUMBERS: usize = 0xffff_ffff;

/// Where a row stands in the flat list.
#[derive(Clone, Copy)]
pub struct Place {
    from: u32,
    to: u32,
}

/// Rows of bins, one after the other in one flat list.
pub struct Rows {
    places: Vec<Place>,
    flat: Vec<u32>,
}

impl Drop for Rows {
    fn drop(self) {
        let Rows { places: _, flat: _ } = self;
    }
}

impl Model for Rows {
    ghost use Rattle.std.specs.Prelude.{List, ℕ};
    ghost use Rattle.value_index.specs.Rows.{rows_of, AllStand};

    ghost Value = { List (List ℕ) };

    ghost view = { λ r. rows_of r.flat.items r.places.items };

    ghost invariant = { λ r. AllStand r.flat.items r.places.items };
}

impl Rows {
    /// No rows.
    pub fn new(alloc: Global) -> Rows
        ensures { result ≡ [] }
    {
        Rows {
            places: Vec::new(alloc),
            flat: Vec::new(alloc),
        }
    }

    /// Puts a row behind the others. There is no room where all rows have 2^32 numbers and more together.
    pub fn push(&mut self, row: &[u32]) -> Result<(), Memory>
        ensures after { OnOk result (self.new ≡ self.old ++ row.now ∷ []) }
    {
        let from = self.flat.len();
        self.flat.extend_from_slice(row)?;
        let to = self.flat.len();
        if to > MOST_NUMBERS {
            return Err(Memory);
        }
        self.places.push(Place {
            from: from as u32,
            to: to as u32,
        })?;
        Ok(())
    }

    /// The row at an index.
    pub fn row(&self, k: usize) -> &[u32]
        requires { k < length self.now }
        ensures { result.now ≡ slice_index_or self.now k [] }
    {
        let place = self.places[k];
        &self.flat[place.from as usize..place.to as usize]
    }
}

/// One row while it is built.
#[derive(Drop)]
pub(crate) struct Row {
    bins: Vec<u32>,
}

impl Model for Row {
    ghost use Rattle.std.specs.Prelude.{List, ℕ};

    ghost Value = { List ℕ };

    ghost view = { λ r. r.bins.items };
}

impl Row {
    pub(crate) fn new(alloc: Global) -> Row
        ensures { result ≡ [] }
    {
        Row {
            bins: Vec::new(alloc),
        }
    }

    pub(crate) fn push(&mut self, bin: u32) -> Result<(), Memory>
        ensures { OnOk result (self.new ≡ self.old ++ bin ∷ []) }
    {
        self.bins.push(bin)?;
        Ok(())
    }

    pub(crate) fn as_slice(&self) -> &[u32]
        ensures { result.now ≡ self.now }
    {
        self.bins.as_slice()
    }
}
