//! The lines of the ranking.
ghost use Rattle.std.specs.Prelude.{◌≡◌, ◌++◌, length, OnOk};
ghost use Rattle.cov_history.specs.History.{tests_of};
ghost use Rattle.merge_store.specs.Stores.{opening_of, entries_of};
ghost use Rattle.rank_report.specs.Lines.{rank_text};
ghost use Rattle.store_views.specs.Views.{ranked_at};

use appending::append;
use cov_base::Memory;
use cov_tree::Name;
use merge_store::Store;
use rank_report::rank_lines;
use std::alloc::Global;
use std::thread::Threads;
use store_views::ranked;

/// A line for each test of the ranking.
pub(crate) fn append_ranking<R: Threads + Sync>(
    rt: &R,
    alloc: Global,
    text: &mut Vec<u8>,
    store: &Store,
    ids: &[Name],
) -> Result<(), Memory>
    requires { length ids.now ≡ length (tests_of (entries_of store.now)) }
    ensures { OnOk result (text.new.items ≡ text.old.items ++ rank_text 1 (ranked_at (opening_of store.now) (entries_of store.now)) ids.now) }
{
    let rows = ranked(rt, store)?;
    let lines = rank_lines(alloc, rows.as_slice(), ids)?;
    append(text, lines.as_slice())?;
    Ok(())
}
