//! The tests of a store.
ghost use Rattle.std.specs.Prelude.{◌≡◌, ◌<◌, ◌+◌, take, length, map, IfOk, MatchOption};
ghost use Rattle.cov_ground.specs.Limits.{most_test_rows};
ghost use Rattle.cov_history.specs.History.{tests_of};
ghost use Rattle.cov_history.specs.Answers.{test_row};
ghost use Rattle.merge_store.specs.Stores.{entries_of};

use cov_base::Memory;
use cov_ground::limits::MOST_TEST_ROWS;
use merge_store::Store;
use std::alloc::Global;
use ucis_model::HistoryNode;

/// The next page of tests behind those that are there; where the page after it begins, if there is one.
fn push_page(tests: &mut Vec<HistoryNode>, store: &Store, first: u32) -> Result<Option<u32>, Memory>
    requires { tests.old.items ≡ map test_row (take first (tests_of (entries_of store.now))) }
    ensures { let all = tests_of (entries_of store.now) in IfOk result (λ next. MatchOption next
        (tests.new.items ≡ map test_row all)
        (λ place. (place ≡ first + most_test_rows) × (place < length all) × (tests.new.items ≡ map test_row (take place all)))) }
{
    let (total, page) = store.tests(first)?;
    let mut rows = page.into_vec();
    tests.append(&mut rows)?;
    if total <= first {
        return Ok(None);
    }
    if total - first <= MOST_TEST_ROWS as u32 {
        return Ok(None);
    }
    Ok(Some(first + MOST_TEST_ROWS as u32))
}

/// All tests in order of admission, each with its record's digest.
pub fn all_tests(alloc: Global, store: &Store) -> Result<Vec<HistoryNode>, Memory>
    ensures { IfOk result (λ rows. rows.items ≡ map test_row (tests_of (entries_of store.now))) }
{
    let mut tests = Vec::new(alloc);
    let mut next: Option<u32> = Some(0);
    while let Some(first) = next {
        next = push_page(&mut tests, store, first)?;
    }
    Ok(tests)
}
