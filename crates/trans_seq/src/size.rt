//! How large sequences are.
ghost use Rattle.std.specs.Prelude.{◌≡◌, min};
ghost use Rattle.trans_seq.specs.Cells.{cells_of_items as item_cells, cells_of_seqs as seq_cells};

use crate::seq::{Item, Seq};

/// How many cells the items have together; the greatest `u64` where that is larger.
pub fn cells_of_items(items: &[Item]) -> u64
    ensures { result ≡ min (item_cells items.now) u64.MAX }
{
    let mut sum: u64 = 0;
    for item in items {
        sum = sum.saturating_add(item.repeat.cells());
    }
    sum
}

/// How many cells an automaton needs for the sequence: 1 for an item that stands once, `high` for `[*low:high]`,
/// 2 * `high` for `[->low:high]` and 2 * `high` + 1 for `[=low:high]`; the greatest `u64` where the sum is larger.
pub fn cells(seq: &Seq) -> u64
    ensures { result ≡ min (item_cells seq.now.items) u64.MAX }
{
    cells_of_items(seq.items.as_slice())
}

/// How many cells the sequences have together; the greatest `u64` where that is larger.
pub fn cells_of_seqs(seqs: &[Seq]) -> u64
    ensures { result ≡ min (seq_cells seqs.now) u64.MAX }
{
    let mut sum: u64 = 0;
    for seq in seqs {
        sum = sum.saturating_add(cells(seq));
    }
    sum
}
