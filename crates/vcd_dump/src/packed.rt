//! Times and changes, packed.
ghost use Rattle.std.specs.Prelude.{◌≡◌, ◌++◌, ◌∷◌, [], OnOk, IfOk};
ghost use Rattle.vcd_dump.specs.Packing.{items_in};

use crate::packing::{Item, append_item};
use cov_ground::Memory;
use std::alloc::Global;
use std::marker::Model;
use std::mem;

/// The times and changes of a dump in their order, packed into bytes.
#[derive(Drop)]
pub(crate) struct Packed {
    bytes: Vec<u8>,
}

impl Model for Packed {
    ghost use Rattle.std.specs.Prelude.{List};
    ghost use Rattle.vcd_dump.specs.declared.packing.Item.{Item};
    ghost use Rattle.vcd_dump.specs.contracts.packing.Item as item_type;
    ghost use Rattle.vcd_dump.specs.Packing.{items_in, IsWhole};
    ghost use Rattle.std.specs.Coded.{codes};

    ghost Value = { List Item };

    ghost coded = { Prim.hlevel (codes, item_type.the_row.coded) };

    ghost view = { λ packed. items_in packed.bytes.items };

    ghost invariant = { λ packed. IsWhole packed.bytes.items };
}

impl Packed {
    /// No items, with room for so many bytes.
    pub(crate) fn with_room(alloc: Global, room: usize) -> Result<Packed, Memory>
        ensures { IfOk result (λ packed. packed ≡ []) }
    {
        let bytes = Vec::with_capacity(alloc, room)?;
        Ok(Packed { bytes })
    }

    /// One more item at the end. Where memory runs out, no items are left.
    pub(crate) fn push(&mut self, alloc: Global, item: Item) -> Result<(), Memory>
        ensures { OnOk result (self.new ≡ self.old ++ item ∷ []) }
    {
        let mut bytes = mem::replace(&mut self.bytes, Vec::new(alloc));
        append_item(&mut bytes, item)?;
        self.bytes = bytes;
        Ok(())
    }

    /// The bytes that hold the items.
    pub(crate) fn as_bytes(&self) -> &[u8]
        ensures { items_in result.now ≡ self.now }
    {
        &self.bytes
    }
}
