//! The verdict.
ghost use Rattle.std.specs.Prelude.{◌≡◌, ◌++◌, codes, length, filter, not, OnOk};
ghost use Rattle.markup.specs.Trees.{markup_text};
ghost use Rattle.hex.specs.Hex.{encode_lower};
ghost use Rattle.page_parts.specs.Pieces.{figure_count as count_meant, figure_text as text_meant};
ghost use Rattle.merge_store.specs.Stores.{opening_of, entries_of};
ghost use Rattle.export_json.specs.Export.{test_rows};
ghost use Rattle.export_page.specs.Page.{coverage_figures, bin_figures, point_figures, history_figures, verdict_figures, verdict_part};

use crate::chosen::{illegal_bins, live_types, met_types, out_bins};
use crate::tests::append_figures;
use cov_ground::Memory;
use hex::encode_to_slice;
use merge_store::Store;
use page_parts::{
    begin_block, begin_section, end_block, figure_count, figure_ratio, figure_text, overall,
};
use std::alloc::Global;
use store_views::children;
use ucis_model::HistoryNode;

/// A digest in hexadecimal digits.
fn digits_of(digest: &[u8; 32]) -> [u8; 64]
    ensures { result ≡ encode_lower digest.now }
{
    let mut digits = [0; 64];
    let _ = encode_to_slice(digest.as_slice(), &mut digits);
    digits
}

/// How many types are met, and how many bins are covered.
#[tactic(auto, unfolding(crate::specs::Page::coverage_figures))]
fn append_coverage(alloc: Global, text: &mut Vec<u8>, store: &Store) -> Result<(), Memory>
    ensures { OnOk result (text.new.items ≡ text.old.items
        ++ markup_text (coverage_figures (opening_of store.now) (entries_of store.now))) }
{
    let types = children(store, 0);
    let met = met_types(alloc, store, types)?;
    let live = live_types(alloc, store, types)?;
    let row = store.cover_row(0)?;
    figure_ratio(text, "Types met", met.len() as u64, live.len() as u64)?;
    figure_ratio(text, "Bins covered", row.covered as u64, row.bins as u64)?;
    Ok(())
}

/// How many illegal bins were hit, and how many bins are excluded.
#[tactic(auto, unfolding(crate::specs::Page::bin_figures))]
fn append_bins(alloc: Global, text: &mut Vec<u8>, store: &Store) -> Result<(), Memory>
    ensures { OnOk result (text.new.items ≡ text.old.items
        ++ markup_text (bin_figures (opening_of store.now) (entries_of store.now))) }
{
    let hit = illegal_bins(alloc, store)?;
    let out = out_bins(alloc, store)?;
    figure_count(text, "Illegal bins hit", hit.len() as u64)?;
    figure_count(text, "Bins excluded", out.len() as u64)?;
    Ok(())
}

/// The digest of the design.
fn append_digest(text: &mut Vec<u8>, digest: &[u8; 32]) -> Result<(), Memory>
    ensures { OnOk result (text.new.items ≡ text.old.items
        ++ markup_text (text_meant (codes "SHA-256 of the design") (encode_lower digest.now))) }
{
    let digits = digits_of(digest);
    figure_text(text, "SHA-256 of the design", digits.as_slice())?;
    Ok(())
}

/// The point of the history.
fn append_place(text: &mut Vec<u8>, store: &Store) -> Result<(), Memory>
    ensures { OnOk result (text.new.items ≡ text.old.items
        ++ markup_text (count_meant (codes "Point of the history") (length (entries_of store.now)))) }
{
    figure_count(text, "Point of the history", store.point())?;
    Ok(())
}

/// The point of the history, and the digest of its design.
#[tactic(auto, unfolding(crate::specs::Page::point_figures))]
fn append_point(text: &mut Vec<u8>, store: &Store, digest: &[u8; 32]) -> Result<(), Memory>
    ensures { OnOk result (text.new.items ≡ text.old.items
        ++ markup_text (point_figures (entries_of store.now) digest.now)) }
{
    append_place(text, store)?;
    append_digest(text, digest)?;
    Ok(())
}

/// What is said of bins and of the history.
#[tactic(auto, unfolding(crate::specs::Page::history_figures))]
fn append_history(
    alloc: Global,
    text: &mut Vec<u8>,
    store: &Store,
    digest: &[u8; 32],
) -> Result<(), Memory>
    ensures { OnOk result (text.new.items ≡ text.old.items
        ++ markup_text (history_figures (opening_of store.now) (entries_of store.now) digest.now)) }
{
    append_bins(alloc, text, store)?;
    append_point(text, store, digest)?;
    Ok(())
}

/// All figures in a list.
fn append_all_figures(
    alloc: Global,
    text: &mut Vec<u8>,
    store: &Store,
    digest: &[u8; 32],
    tests: &[HistoryNode],
) -> Result<(), Memory>
    requires { tests.now ≡ test_rows (entries_of store.now) }
    ensures { OnOk result (text.new.items ≡ text.old.items
        ++ markup_text (verdict_figures (opening_of store.now) (entries_of store.now) digest.now)) }
{
    begin_block(text, "dl")?;
    append_coverage(alloc, text, store)?;
    append_figures(text, tests)?;
    append_history(alloc, text, store, digest)?;
    end_block(text, "dl")?;
    Ok(())
}

/// The section of the verdict.
pub(crate) fn append_verdict(
    alloc: Global,
    text: &mut Vec<u8>,
    store: &Store,
    digest: &[u8; 32],
    tests: &[HistoryNode],
) -> Result<(), Memory>
    requires { tests.now ≡ test_rows (entries_of store.now) }
    ensures { OnOk result (text.new.items ≡ text.old.items
        ++ markup_text (verdict_part (opening_of store.now) (entries_of store.now) digest.now)) }
{
    let row = store.cover_row(0)?;
    begin_section(text, "verdict", "Verdict")?;
    overall(text, row.millionths)?;
    append_all_figures(alloc, text, store, digest, tests)?;
    end_block(text, "section")?;
    Ok(())
}
