//! What codes hold after changes.
ghost use Rattle.std.specs.Prelude.{◌≡◌, slice_set};
ghost use Rattle.vcd_dump.specs.Packing.{items_in};
ghost use Rattle.vcd_dump.specs.Body.{changes_of};
ghost use Rattle.vcd_reader.specs.Held.{held_by, applied};

use vcd_dump::{Bit4, Change, next_change};

/// What a code holds: its value, which is None where it is Unknown, and its lowest bit.
#[derive(Clone, Copy)]
pub(crate) struct Held {
    pub(crate) value: Option<u64>,
    pub(crate) low: Bit4,
}

/// What is held before the first change.
pub(crate) const UNKNOWN: Held = Held {
    value: None,
    low: Bit4::X,
};

/// One change; none of a code that the table doesn't have.
fn put(change: Change, table: &mut [Held])
    ensures { table.new ≡ slice_set table.old change.code (held_by change) }
{
    let code = change.code as usize;
    if code < table.len() {
        table[code] = Held {
            value: change.value,
            low: change.low,
        };
    }
}

/// All changes of a step, with which the bytes begin, in a table by code.
pub(crate) fn apply(changes: &[u8], table: &mut [Held])
    ensures { table.new ≡ applied (changes_of (items_in changes.now)) table.old }
{
    let mut rest = changes;
    while let Some((change, later)) = next_change(rest) {
        put(change, table);
        rest = later;
    }
}
