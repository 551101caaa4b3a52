//! The whole page.
ghost use Rattle.std.specs.Prelude.{◌≡◌, ◌++◌, OnOk};
ghost use Rattle.markup.specs.Trees.{markup_text};
ghost use Rattle.merge_store.specs.Stores.{opening_of, entries_of};
ghost use Rattle.export_json.specs.Export.{test_rows};
ghost use Rattle.export_page.specs.Page.{coverage_parts, test_parts, page_tree, page_text};

use crate::holes::append_holes;
use crate::illegal::append_illegal;
use crate::nodes::append_types;
use crate::ranking::append_ranking;
use crate::tests::append_tests;
use crate::verdict::append_verdict;
use cov_ground::Memory;
use merge_store::Store;
use page_parts::{append_back, append_front};
use std::alloc::Global;
use std::thread::Threads;
use store_views::{all_tests, ranked};
use ucis_model::HistoryNode;

/// What is said of coverage.
#[tactic(auto, unfolding(crate::specs::Page::coverage_parts))]
fn append_coverage(
    alloc: Global,
    text: &mut Vec<u8>,
    store: &Store,
    digest: &[u8; 32],
    tests: &[HistoryNode],
) -> Result<(), Memory>
    requires { tests.now ≡ test_rows (entries_of store.now) }
    ensures { OnOk result (text.new.items ≡ text.old.items
        ++ markup_text (coverage_parts (opening_of store.now) (entries_of store.now) digest.now)) }
{
    append_illegal(alloc, text, store)?;
    append_verdict(alloc, text, store, digest, tests)?;
    append_types(alloc, text, store)?;
    append_holes(alloc, text, store)
}

/// What is said of tests.
#[tactic(auto, unfolding(crate::specs::Page::test_parts))]
fn append_test_parts<R: Threads + Sync>(
    rt: &R,
    alloc: Global,
    text: &mut Vec<u8>,
    store: &Store,
    tests: &[HistoryNode],
) -> Result<(), Memory>
    requires { tests.now ≡ test_rows (entries_of store.now) }
    ensures { OnOk result (text.new.items ≡ text.old.items
        ++ markup_text (test_parts (opening_of store.now) (entries_of store.now) tests.now)) }
{
    let rows = ranked(rt, store)?;
    let row = store.cover_row(0)?;
    append_tests(text, tests)?;
    append_ranking(alloc, text, row.bins, tests, rows.as_slice())?;
    Ok(())
}

/// What a page says.
fn append_tree<R: Threads + Sync>(
    rt: &R,
    alloc: Global,
    text: &mut Vec<u8>,
    store: &Store,
    digest: &[u8; 32],
) -> Result<(), Memory>
    ensures { OnOk result (text.new.items ≡ text.old.items
        ++ markup_text (page_tree (opening_of store.now) (entries_of store.now) digest.now)) }
{
    let tests = all_tests(alloc, store)?;
    append_coverage(alloc, text, store, digest, tests.as_slice())?;
    append_test_parts(rt, alloc, text, store, tests.as_slice())?;
    Ok(())
}

/// Adds a store as one page of HTML, in ASCII, that names no other file: the illegal bins that were hit, the verdict, each type
/// with its instances, their items and their bins, the holes, the tests, and their ranking with its curve. Of an item with
/// more than 1,024 bins only holes stand there, 1,024 at most, with how many more there are. Coverage is in per cent, rounded
/// down to two digits behind the point. `digest` is the SHA-256 of the design's text. The tests are ranked by all processors.
///
/// # Errors
/// Want of memory.
#[tactic(auto, unfolding(crate::specs::Page::page_text))]
pub fn append_page<R: Threads + Sync>(
    rt: &R,
    alloc: Global,
    text: &mut Vec<u8>,
    store: &Store,
    digest: &[u8; 32],
) -> Result<(), Memory>
    ensures { OnOk result (text.new.items ≡ text.old.items
        ++ page_text (opening_of store.now) (entries_of store.now) digest.now) }
{
    append_front(text)?;
    append_tree(rt, alloc, text, store, digest)?;
    append_back(text)?;
    Ok(())
}
