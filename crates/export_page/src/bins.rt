//! The bins of an item.
ghost use Rattle.std.specs.Prelude.{◌≡◌, ◌<◌, ◌++◌, All, codes, length, nat_le, OnOk};
ghost use Rattle.markup.specs.Trees.{each, markup_text};
ghost use Rattle.merge_store.specs.Now.{nodes_now};
ghost use Rattle.merge_store.specs.Stores.{opening_of, entries_of};
ghost use Rattle.export_page.specs.Views.{most_bins};
ghost use Rattle.export_page.specs.Page.{bin_row as row_meant, bin_table as table_meant, hole_table as holes_meant, bins_part};

use crate::chosen::{MOST_BINS, holes_among, shown};
use cov_ground::Memory;
use merge_store::Store;
use page_parts::{begin_table, bin_row, end_table, left_out};
use std::alloc::Global;
use store_views::{state_of, state_word};

/// The heads of the columns of bins.
const COLUMNS: [&str; 4] = ["Bin", "Count", "At least", "State"];

/// The row of a bin.
#[tactic(auto, unfolding(crate::specs::Page::bin_row))]
fn append_bin(text: &mut Vec<u8>, store: &Store, node: u32) -> Result<(), Memory>
    requires { node < length (nodes_now store.now) }
    ensures { OnOk result (text.new.items ≡ text.old.items
        ++ markup_text (row_meant (opening_of store.now) (entries_of store.now) node)) }
{
    let state = state_of(store, node)?;
    let count = store.count(node);
    let bin = &store.nodes()[node as usize];
    bin_row(
        text,
        bin.name.as_slice(),
        count,
        bin.at_least,
        state_word(state),
    )?;
    Ok(())
}

/// The rows of bins.
fn append_rows(text: &mut Vec<u8>, store: &Store, bins: &[u32]) -> Result<(), Memory>
    requires { All (λ n. n < length (nodes_now store.now)) bins.now }
    ensures { OnOk result (text.new.items ≡ text.old.items
        ++ markup_text (each (row_meant (opening_of store.now) (entries_of store.now)) bins.now)) }
{
    for bin in bins {
        append_bin(text, store, *bin)?;
    }
    Ok(())
}

/// The table of bins.
fn append_table(
    text: &mut Vec<u8>,
    store: &Store,
    caption: &str,
    bins: &[u32],
) -> Result<(), Memory>
    requires { All (λ n. n < length (nodes_now store.now)) bins.now }
    ensures { OnOk result (text.new.items ≡ text.old.items
        ++ markup_text (table_meant (opening_of store.now) (entries_of store.now) caption.now bins.now)) }
{
    begin_table(text, caption, &COLUMNS)?;
    append_rows(text, store, bins)?;
    end_table(text)?;
    Ok(())
}

/// The table of holes of an item that has so many bins, with how many more holes there are.
#[tactic(auto, unfolding(crate::specs::Page::hole_table))]
fn append_holes(text: &mut Vec<u8>, store: &Store, bins: u64, holes: &[u32]) -> Result<(), Memory>
    requires { All (λ n. n < length (nodes_now store.now)) holes.now }
    ensures { OnOk result (text.new.items ≡ text.old.items
        ++ markup_text (holes_meant (opening_of store.now) (entries_of store.now) bins holes.now)) }
{
    left_out(text, bins, holes.len().saturating_sub(MOST_BINS) as u64)?;
    append_table(text, store, "Holes", shown(holes))?;
    Ok(())
}

/// Whether so many bins all stand on the page.
fn are_few(bins: usize) -> bool
    ensures { result ≡ nat_le bins most_bins }
{
    bins <= MOST_BINS
}

/// The bins of an item; of many only the holes.
#[tactic(auto, unfolding(crate::specs::Page::bins_part))]
pub(crate) fn append_bins(
    alloc: Global,
    text: &mut Vec<u8>,
    store: &Store,
    bins: &[u32],
) -> Result<(), Memory>
    requires { All (λ n. n < length (nodes_now store.now)) bins.now }
    ensures { OnOk result (text.new.items ≡ text.old.items
        ++ markup_text (bins_part (opening_of store.now) (entries_of store.now) bins.now)) }
{
    if are_few(bins.len()) {
        append_table(text, store, "Bins", bins)?;
        return Ok(());
    }
    let holes = holes_among(alloc, store, bins)?;
    append_holes(text, store, bins.len() as u64, holes.as_slice())?;
    Ok(())
}
