//! The cells of items in a mask, and which of them are marked.
ghost use Rattle.std.specs.Prelude.{◌≡◌, ℕ, ◌+◌, ◌<◌, ◌≤◌, false, OnOk, IfOk};
ghost use Rattle.cov_ground.specs.Limits.{most_cells};
ghost use Rattle.trans_seq.specs.Windows.{is_end};
ghost use Rattle.trans_seq.specs.Cells.{cells_of_repeat, cells_of_items, cells_of_seqs};
ghost use Rattle.trans_auto.specs.Masks.{has_bit};
ghost use Rattle.trans_auto.specs.Layout.{is_marked as is_marked_of, is_run as is_run_of, is_done as is_done_of, skips as skips_of, IsMarked, IsMarkedAlone, ItemsMarked, SeqsMarked, IsLaid, ItemsLaid, SeqsLaid, Grows};

use crate::bits::put;
use cov_base::Memory;
use cov_tree::List;
use std::alloc::Global;
use trans_seq::{Item, Repeat, Seq};

/// What may be marked among the cells of an item.
#[derive(Clone, Copy)]
pub(crate) enum Mark {
    /// Each cell.
    All,
    /// The first one.
    First,
    /// Each but the first.
    Later,
    /// Each cell of a run.
    Run,
    /// Each cell of a gap.
    Gap,
    /// Each cell of a block's end.
    End,
    /// The cells at which the item may be complete.
    Done,
}

/// What a step has to know of an item.
#[derive(Drop, Clone, Copy)]
pub(crate) struct ItemCells {
    /// Its cells.
    pub(crate) all: u128,
    /// The first of them, where it has any.
    pub(crate) first: u128,
    /// Those at which it may be complete.
    pub(crate) done: u128,
    /// Whether it may be complete without a sample.
    pub(crate) skips: bool,
}

/// How many cells an item has, where there are few.
fn cells(repeat: Repeat) -> u32
    requires { cells_of_repeat repeat ≤ most_cells }
    ensures { result ≡ cells_of_repeat repeat }
{
    repeat.cells() as u32
}

fn is_run(repeat: Repeat) -> bool
    ensures { result ≡ is_run_of repeat }
{
    match repeat {
        Repeat::Once | Repeat::Consec { .. } => true,
        Repeat::Goto { .. } | Repeat::NonConsec { .. } => false,
    }
}

/// Whether the item may be complete at its cell k.
fn is_done(repeat: Repeat, last: bool, k: u32) -> bool
    requires { k < most_cells }
    ensures { result ≡ is_done_of repeat last k }
{
    match repeat {
        Repeat::Once => true,
        Repeat::Consec { low, .. } => low <= k + 1,
        Repeat::Goto { low, .. } => k % 2 == 1 && low <= (k + 1) / 2,
        Repeat::NonConsec { low, .. } => (k % 2 == 1 || !last) && low <= (k + 1) / 2,
    }
}

/// Whether the item may be complete without a sample.
fn skips(repeat: Repeat) -> bool
    ensures { result ≡ skips_of repeat }
{
    match repeat {
        Repeat::Once => false,
        Repeat::Consec { low, .. } => low == 0,
        Repeat::Goto { low, .. } => low == 0,
        Repeat::NonConsec { low, .. } => low == 0,
    }
}

/// Whether cell k of an item is marked.
fn is_marked(mark: Mark, repeat: Repeat, last: bool, k: u32) -> bool
    requires { k < most_cells }
    ensures { result ≡ is_marked_of mark repeat last k }
{
    match mark {
        Mark::All => true,
        Mark::First => k == 0,
        Mark::Later => k != 0,
        Mark::Run => is_run(repeat),
        Mark::Gap => !is_run(repeat) && k % 2 == 0,
        Mark::End => !is_run(repeat) && k % 2 == 1,
        Mark::Done => is_done(repeat, last, k),
    }
}

/// Sets the bits of an item's marked cells, which begin at bit `base`.
fn mark_item(mark: Mark, repeat: Repeat, last: bool, base: u32, start: u128) -> u128
    requires fits { base + cells_of_repeat repeat ≤ most_cells }
    requires clear { (k : ℕ) → base ≤ k → has_bit start k ≡ false }
    ensures below { (k : ℕ) → k < base → has_bit result k ≡ has_bit start k }
    ensures here { IsMarked mark base repeat last result }
    ensures above { (k : ℕ) → base + cells_of_repeat repeat ≤ k → has_bit result k ≡ false }
{
    let mut mask = start;
    for k in 0..cells(repeat) {
        mask = put(mask, base + k, is_marked(mark, repeat, last, k));
    }
    mask
}

/// The mask of an item's marked cells, which begin at bit `base`.
fn item_mask(mark: Mark, repeat: Repeat, last: bool, base: u32) -> u128
    requires { base + cells_of_repeat repeat ≤ most_cells }
    ensures { IsMarkedAlone mark base repeat last result }
{
    mark_item(mark, repeat, last, base, 0)
}

/// The cells of an item, which begin at bit `base`.
fn cells_of_item(repeat: Repeat, last: bool, base: u32) -> ItemCells
    requires { base + cells_of_repeat repeat ≤ most_cells }
    ensures { IsLaid base repeat last result }
{
    ItemCells {
        all: item_mask(Mark::All, repeat, last, base),
        first: item_mask(Mark::First, repeat, last, base),
        done: item_mask(Mark::Done, repeat, last, base),
        skips: skips(repeat),
    }
}

/// How many cells the items have, where there are few.
fn cells_of(items: &[Item]) -> u32
    requires { cells_of_items items.now ≤ most_cells }
    ensures { result ≡ cells_of_items items.now }
{
    trans_seq::cells_of_items(items) as u32
}

/// Sets the bits of the items' marked cells.
fn mark_items(mark: Mark, items: &[Item], base: u32, start: u128) -> u128
    requires fits { base + cells_of_items items.now ≤ most_cells }
    requires clear { (k : ℕ) → base ≤ k → has_bit start k ≡ false }
    ensures below { (k : ℕ) → k < base → has_bit result k ≡ has_bit start k }
    ensures here { ItemsMarked mark base result items.now }
    ensures above { (k : ℕ) → base + cells_of_items items.now ≤ k → has_bit result k ≡ false }
{
    match items {
        [] => start,
        [item, rest @ ..] => {
            let lower = mark_item(mark, item.repeat, rest.is_empty(), base, start);
            mark_items(mark, rest, base + cells(item.repeat), lower)
        }
    }
}

/// Sets the bits of the sequences' marked cells.
pub(crate) fn mark_seqs(mark: Mark, seqs: &[Seq], base: u32, start: u128) -> u128
    requires fits { base + cells_of_seqs seqs.now ≤ most_cells }
    requires clear { (k : ℕ) → base ≤ k → has_bit start k ≡ false }
    ensures below { (k : ℕ) → k < base → has_bit result k ≡ has_bit start k }
    ensures here { SeqsMarked mark base result seqs.now }
{
    match seqs {
        [] => start,
        [seq, rest @ ..] => {
            let items = seq.items.as_slice();
            let lower = mark_items(mark, items, base, start);
            mark_seqs(mark, rest, base + cells_of(items), lower)
        }
    }
}

/// Adds the cells of each item.
fn lay_items(items: &[Item], base: u32, out: &mut Vec<ItemCells>) -> Result<(), Memory>
    requires { base + cells_of_items items.now ≤ most_cells }
    ensures { OnOk result (Grows out.old.items out.new.items (λ cells. ItemsLaid base items.now cells)) }
{
    match items {
        [] => Ok(()),
        [item, rest @ ..] => {
            out.push(cells_of_item(item.repeat, rest.is_empty(), base))?;
            lay_items(rest, base + cells(item.repeat), out)
        }
    }
}

/// The cells of each item.
fn laid_items(alloc: Global, items: &[Item], base: u32) -> Result<List<ItemCells>, Memory>
    requires { base + cells_of_items items.now ≤ most_cells }
    ensures { IfOk result (λ cells. ItemsLaid base items.now cells) }
{
    let mut cells = Vec::new(alloc);
    lay_items(items, base, &mut cells)?;
    Ok(List::of(cells))
}

/// Adds the cells of each item of each sequence.
pub(crate) fn lay_seqs(
    alloc: Global,
    seqs: &[Seq],
    base: u32,
    out: &mut Vec<List<ItemCells>>,
) -> Result<(), Memory>
    requires { base + cells_of_seqs seqs.now ≤ most_cells }
    ensures { OnOk result (Grows out.old.items out.new.items (λ cells. SeqsLaid base seqs.now cells)) }
{
    match seqs {
        [] => Ok(()),
        [seq, rest @ ..] => {
            let items = seq.items.as_slice();
            out.push(laid_items(alloc, items, base)?)?;
            lay_seqs(alloc, rest, base + cells_of(items), out)
        }
    }
}
