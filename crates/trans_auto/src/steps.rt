//! What a sample does to the cells of a side, all at once.
ghost use Rattle.std.specs.Prelude.{◌≡◌, ℕ, ◌+◌, ◌<◌, ◌≤◌, ◌↔◌, ◌||◌, false, IsTrue, List, Option, ℤ, Bool};
ghost use Rattle.trans_seq.specs.declared.seq.Item.{Item};
ghost use Rattle.trans_seq.specs.declared.seq.Seq.{Seq};
ghost use Rattle.trans_seq.specs.declared.seq.Repeat.{Repeat};
ghost use Rattle.trans_seq.specs.Cells.{cells_of_repeat, cells_of_items, cells_of_seqs};
ghost use Rattle.trans_auto.specs.Masks.{has_bit};
ghost use Rattle.trans_auto.specs.Steps.{Leaves, Accepts, SomeAccepts};
ghost use Rattle.trans_auto.specs.Layout.{IsClear, Adds, IsLaid, ItemsLaid, SeqsLaid, ItemsInside, SeqsInside, ItemsEnter, SeqsEnter, moved_bit};

use crate::bits::{meets, with};
use crate::marks::ItemCells;
use cov_base::Int;
use trans_seq::{Item, Seq, is_inside};

/// The cells of a side by what they are.
#[derive(Drop, Clone, Copy)]
pub(crate) struct Masks {
    /// Those of runs.
    pub(crate) runs: u128,
    /// Those of gaps.
    pub(crate) gaps: u128,
    /// Those of blocks' ends.
    pub(crate) ends: u128,
    /// Those that aren't the first of their item.
    pub(crate) later: u128,
}

/// Adds the cells of each item that the sample is inside.
fn items_inside(items: &[Item], cells: &[ItemCells], sample: &Option<Int>, start: u128) -> u128
    ensures { (base : ℕ) → ItemsLaid base items.now cells.now → IsClear base start
        → Adds base (cells_of_items items.now) start result (λ mask. ItemsInside base mask sample.now items.now) }
{
    match items {
        [] => start,
        [item, others @ ..] => match cells {
            [] => start,
            [one, rest @ ..] => {
                let inside = is_inside(&item.set, *sample);
                items_inside(others, rest, sample, with(start, one.all, inside))
            }
        },
    }
}

/// Adds the cells of each item that the sample is inside.
pub(crate) fn seqs_inside(
    seqs: &[Seq],
    cells: &[cov_tree::List<ItemCells>],
    sample: &Option<Int>,
    start: u128,
) -> u128
    ensures { (base : ℕ) → SeqsLaid base seqs.now cells.now → IsClear base start
        → Adds base (cells_of_seqs seqs.now) start result (λ mask. SeqsInside base mask sample.now seqs.now) }
{
    match seqs {
        [] => start,
        [seq, others @ ..] => match cells {
            [] => start,
            [one, rest @ ..] => {
                let lower = items_inside(seq.items.as_slice(), one.as_slice(), sample, start);
                seqs_inside(others, rest, sample, lower)
            }
        },
    }
}

/// Whether the item may be complete.
#[inline(always)]
fn leaves(cells: &ItemCells, old: u128, enter: bool) -> bool
    ensures { (base : ℕ) (repeat : Repeat) (last : Bool) → IsLaid base repeat last cells.now → IsTrue result ↔ Leaves enter base old repeat last }
{
    meets(old, cells.done) || (cells.skips && enter)
}

/// Adds the first cell of each item that may begin at the next sample.
fn items_enter(cells: &[ItemCells], old: u128, enter: bool, start: u128) -> u128
    ensures { (base : ℕ) (items : List Item) → ItemsLaid base items cells.now → IsClear base start
        → Adds base (cells_of_items items) start result (λ mask. ItemsEnter enter base old mask items) }
{
    match cells {
        [] => start,
        [one, rest @ ..] => {
            let next = leaves(one, old, enter);
            items_enter(rest, old, next, with(start, one.first, enter))
        }
    }
}

/// Adds the first cell of each item that may begin at the next sample.
pub(crate) fn seqs_enter(
    cells: &[cov_tree::List<ItemCells>],
    old: u128,
    fresh: bool,
    start: u128,
) -> u128
    ensures { (base : ℕ) (seqs : List Seq) → SeqsLaid base seqs cells.now → IsClear base start
        → Adds base (cells_of_seqs seqs) start result (λ mask. SeqsEnter fresh base old mask seqs) }
{
    match cells {
        [] => start,
        [one, rest @ ..] => {
            let lower = items_enter(one.as_slice(), old, fresh, start);
            seqs_enter(rest, old, fresh, lower)
        }
    }
}

/// The cells after a sample.
#[inline(always)]
pub(crate) fn moved(masks: &Masks, inside: u128, enters: u128, old: u128) -> u128
    ensures here { (k : ℕ) → k < 128 → has_bit result k ≡ moved_bit masks.now inside enters old k }
    ensures above { (k : ℕ) → 128 ≤ k → has_bit result k ≡ false }
{
    let before = enters | ((old << 1) & masks.later);
    let open = (before | old) & masks.gaps;
    (before & masks.runs & inside) | ((open << 1) & masks.ends & inside) | (open & !inside)
}

/// Whether all items are complete.
fn items_accept(cells: &[ItemCells], mask: u128, enter: bool) -> bool
    ensures { (base : ℕ) (items : List Item) → ItemsLaid base items cells.now → Accepts enter base mask items result }
{
    match cells {
        [] => enter,
        [one, rest @ ..] => items_accept(rest, mask, leaves(one, mask, enter)),
    }
}

/// Whether a sequence is complete, or `found`; `fresh` says whether no sample was taken.
pub(crate) fn seqs_accept(
    cells: &[cov_tree::List<ItemCells>],
    mask: u128,
    fresh: bool,
    found: bool,
) -> bool
    ensures { (base : ℕ) (seqs : List Seq) → SeqsLaid base seqs cells.now
        → (some : Bool) × SomeAccepts fresh base mask seqs some × (result ≡ (found || some)) }
{
    match cells {
        [] => found,
        [one, rest @ ..] => {
            let complete = items_accept(one.as_slice(), mask, fresh);
            seqs_accept(rest, mask, fresh, found | complete)
        }
    }
}
