//! The text of a report.
ghost use Rattle.std.specs.Prelude.{◌≡◌, ◌++◌, length, map, IfOk, OnOk};
ghost use Rattle.cov_history.specs.History.{tests_of};
ghost use Rattle.merge_store.specs.Stores.{opening_of, entries_of};
ghost use Rattle.cov_report.specs.Lines.{merge_line};
ghost use Rattle.cov_report.specs.Report.{tests_text, report_text, short_text};
ghost use Rattle.store_views.specs.Views.{ids_of as ids_meant};

use crate::coverage::append_coverage;
use crate::illegal::append_all_illegal;
use crate::ranking::append_ranking;
use crate::tests::{append_merge, append_tests, ids_of};
use appending::append;
use cov_base::Memory;
use cov_tree::Name;
use merge_store::Store;
use std::alloc::Global;
use std::thread::Threads;
use store_views::all_tests;

/// The lines of the tests; their ids.
fn append_all_tests(alloc: Global, text: &mut Vec<u8>, store: &Store) -> Result<Vec<Name>, Memory>
    ensures text { OnOk result (text.new.items ≡ text.old.items ++ tests_text (tests_of (entries_of store.now))) }
    ensures ids { IfOk result (λ ids. ids.items ≡ ids_meant (tests_of (entries_of store.now))) }
{
    let tests = all_tests(alloc, store)?;
    append_tests(text, tests.as_slice())?;
    let ids = ids_of(alloc, tests.as_slice())?;
    Ok(ids)
}

/// The text of the report of a store: its tests, notes behind them, the coverage of all and what stands below it, that of each
/// type that has an instance, of the instances that are printed and of all their items, the illegal bins that were hit, and
/// the ranking of the tests. It is built in one buffer. The tests are ranked by all processors.
#[tactic(auto, unfolding(crate::specs::Report::report_text))]
pub fn report_lines<R: Threads + Sync>(
    rt: &R,
    alloc: Global,
    store: &Store,
    notes: &[u8],
    below: &[u8],
) -> Result<Vec<u8>, Memory>
    ensures { IfOk result (λ text. text.items ≡ report_text notes.now below.now (opening_of store.now)
        (entries_of store.now)) }
{
    let mut text = Vec::new(alloc);
    let ids = append_all_tests(alloc, &mut text, store)?;
    append(&mut text, notes)?;
    append_coverage(&mut text, store, below)?;
    append_all_illegal(&mut text, store)?;
    append_ranking(rt, alloc, &mut text, store, ids.as_slice())?;
    Ok(text)
}

/// How many tests a store has.
fn append_number_of_tests(alloc: Global, text: &mut Vec<u8>, store: &Store) -> Result<(), Memory>
    ensures { OnOk result (text.new.items ≡ text.old.items ++ merge_line (length (tests_of (entries_of store.now)))) }
{
    let tests = all_tests(alloc, store)?;
    append_merge(text, tests.len())
}

/// The same without a line for each test and without their ranking, which isn't worked out.
#[tactic(auto, unfolding(crate::specs::Report::short_text))]
pub fn short_lines(
    alloc: Global,
    store: &Store,
    notes: &[u8],
    below: &[u8],
) -> Result<Vec<u8>, Memory>
    ensures { IfOk result (λ text. text.items ≡ short_text notes.now below.now (opening_of store.now) (entries_of store.now)) }
{
    let mut text = Vec::new(alloc);
    append_number_of_tests(alloc, &mut text, store)?;
    append(&mut text, notes)?;
    append_coverage(&mut text, store, below)?;
    append_all_illegal(&mut text, store)?;
    Ok(text)
}
