//! The ranking of the tests.
ghost use Rattle.std.specs.Prelude.{◌≡◌, ◌<◌, All, length, IfOk};
ghost use Rattle.cov_history.specs.History.{tests_of};
ghost use Rattle.merge_store.specs.Stores.{opening_of, entries_of};
ghost use Rattle.store_views.specs.Views.{ranked_at};

use cov_base::Memory;
use cov_tree::List;
use merge_store::Store;
use std::thread::Threads;
use tally::Ranked;

/// The ranking of the tests by the live bins that they cover, the best first. All processors work it out.
pub fn ranked<R: Threads + Sync>(rt: &R, store: &Store) -> Result<List<Ranked>, Memory>
    ensures ranked { IfOk result (λ rows. rows ≡ ranked_at (opening_of store.now) (entries_of store.now)) }
    ensures inside { IfOk result (λ rows. All (λ row. row.test < length (tests_of (entries_of store.now))) rows) }
{
    let rows = store.rank(rt)?;
    Ok(rows)
}
