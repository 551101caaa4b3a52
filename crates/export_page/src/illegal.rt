//! The illegal bins that were hit.
ghost use Rattle.std.specs.Prelude.{◌≡◌, ◌<◌, ◌++◌, All, codes, length, nat_lt, OnOk};
ghost use Rattle.markup.specs.Trees.{each, markup_text};
ghost use Rattle.page_parts.specs.Frames.{table_with};
ghost use Rattle.merge_store.specs.Now.{nodes_now};
ghost use Rattle.merge_store.specs.Stores.{opening_of, entries_of};
ghost use Rattle.export_page.specs.Page.{illegal_row as row_meant, illegal_columns, illegal_table, illegal_or_none, illegal_part};

use crate::chosen::illegal_bins;
use cov_ground::Memory;
use merge_store::Store;
use page_parts::{begin_section, begin_table, end_block, end_table, illegal_row};
use std::alloc::Global;

/// The heads of the columns of illegal bins.
const COLUMNS: [&str; 2] = ["Bin", "Count"];

#[tactic(auto, unfolding(crate::specs::Page::illegal_row))]
fn append_bin(text: &mut Vec<u8>, store: &Store, node: u32) -> Result<(), Memory>
    requires { node < length (nodes_now store.now) }
    ensures { OnOk result (text.new.items ≡ text.old.items
        ++ markup_text (row_meant (opening_of store.now) (entries_of store.now) node)) }
{
    let path = store.path_text(node)?;
    illegal_row(text, path.as_slice(), store.count(node))?;
    Ok(())
}

fn append_rows(text: &mut Vec<u8>, store: &Store, bins: &[u32]) -> Result<(), Memory>
    requires { All (λ n. n < length (nodes_now store.now)) bins.now }
    ensures { OnOk result (text.new.items ≡ text.old.items
        ++ markup_text (each (row_meant (opening_of store.now) (entries_of store.now)) bins.now)) }
{
    for bin in bins {
        append_bin(text, store, *bin)?;
    }
    Ok(())
}

fn append_table(text: &mut Vec<u8>, store: &Store, bins: &[u32]) -> Result<(), Memory>
    requires { All (λ n. n < length (nodes_now store.now)) bins.now }
    ensures { OnOk result (text.new.items ≡ text.old.items
        ++ markup_text (table_with (codes "Illegal bins that were hit") illegal_columns
        (each (row_meant (opening_of store.now) (entries_of store.now)) bins.now))) }
{
    begin_table(text, "Illegal bins that were hit", &COLUMNS)?;
    append_rows(text, store, bins)?;
    end_table(text)?;
    Ok(())
}

fn append_section(text: &mut Vec<u8>, store: &Store, bins: &[u32]) -> Result<(), Memory>
    requires { All (λ n. n < length (nodes_now store.now)) bins.now }
    ensures { OnOk result (text.new.items ≡ text.old.items
        ++ markup_text (illegal_table (opening_of store.now) (entries_of store.now) bins.now)) }
{
    begin_section(text, "illegal", "Illegal bins hit")?;
    append_table(text, store, bins)?;
    end_block(text, "section")?;
    Ok(())
}

/// Whether there are some.
fn is_any(bins: usize) -> bool
    ensures { result ≡ nat_lt 0 bins }
{
    bins > 0
}

/// The section of bins, where there is one.
#[tactic(auto, unfolding(crate::specs::Page::illegal_or_none))]
fn append_if_any(text: &mut Vec<u8>, store: &Store, bins: &[u32]) -> Result<(), Memory>
    requires { All (λ n. n < length (nodes_now store.now)) bins.now }
    ensures { OnOk result (text.new.items ≡ text.old.items
        ++ markup_text (illegal_or_none (opening_of store.now) (entries_of store.now) bins.now)) }
{
    if is_any(bins.len()) {
        return append_section(text, store, bins);
    }
    Ok(())
}

/// The section of the illegal bins that were hit, where there is one.
pub(crate) fn append_illegal(alloc: Global, text: &mut Vec<u8>, store: &Store) -> Result<(), Memory>
    ensures { OnOk result (text.new.items ≡ text.old.items
        ++ markup_text (illegal_part (opening_of store.now) (entries_of store.now))) }
{
    let hit = illegal_bins(alloc, store)?;
    append_if_any(text, store, hit.as_slice())?;
    Ok(())
}
