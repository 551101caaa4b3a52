//! Tests by their ids, and their counts.
ghost use Rattle.std.specs.Prelude.{◌≡◌, length, option_map, IfSome, slice_get, ◌≤◌};
ghost use Rattle.std.specs.Arc.{arc_value};
ghost use Rattle.cov_ground.specs.Limits.{most_tests};
ghost use Rattle.cov_history.specs.History.{kept, design_of, tests_of};
ghost use Rattle.store_parts.specs.Keeps.{rows_of};
ghost use Rattle.store_parts.specs.Words.{test_of};
ghost use Rattle.merge_store.specs.Stores.{opening_of, entries_of};

use crate::Store;
use store_parts::Kept;

impl Store {
    /// The test that is kept under an id.
    pub(crate) fn kept(&self, id: &[u8]) -> Option<&Kept>
        ensures test { option_map (λ k. test_of k.now) result ≡ kept (entries_of self.now) id.now }
        ensures tally { IfSome result (λ k. arc_value k.now.tally ≡ rows_of (design_of (opening_of self.now) (entries_of self.now)) (test_of k.now)) }
    {
        self.tests.get(id)
    }

    /// The test at a place, in order of admission.
    pub(crate) fn test(&self, place: usize) -> Option<&Kept>
        ensures test { option_map (λ k. test_of k.now) result ≡ slice_get (tests_of (entries_of self.now)) place }
        ensures tally { IfSome result (λ k. arc_value k.now.tally ≡ rows_of (design_of (opening_of self.now) (entries_of self.now)) (test_of k.now)) }
    {
        match self.tests.get_index(place) {
            Some((_, test)) => Some(test),
            None => None,
        }
    }

    /// How many tests there are.
    pub(crate) fn test_count(&self) -> usize
        ensures tests { result ≡ length (tests_of (entries_of self.now)) }
        ensures few { result ≤ most_tests }
    {
        self.tests.len()
    }
}
