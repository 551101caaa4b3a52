//! Tests by their ids.
ghost use Rattle.std.specs.Prelude.{◌≡◌, ℕ, ◌<◌, ◌++◌, ◌∷◌, [], None, nat_eq, List, map};
ghost use Rattle.std.specs.Arc.{arc_value};
ghost use Rattle.std.specs.Cmp.Lexicographic.{pointwise};
ghost use Rattle.indexmap.specs.IndexMap.{get_by, spare};
ghost use Rattle.tally.specs.declared.tally.Tally.{Tally};
ghost use Rattle.cov_history.specs.History.{Test};
ghost use Rattle.store_parts.specs.Words.{test_of};

use crate::held::Kept;
use indexmap::IndexMap;

/// Adds a test under a new id, behind the others. It takes no memory, since the map has room for one more.
pub fn add_test(tests: &mut IndexMap<Vec<u8>, Kept>, id: Vec<u8>, test: Kept)
    requires room { 0 < spare tests.old }
    requires new { get_by (λ k. pointwise nat_eq id.items k.items) tests.old ≡ None }
    ensures tests { map {B = List ℕ × Test} (λ e. (e.0.items, test_of e.1)) tests.new.entries ≡ map {B = List ℕ × Test} (λ e. (e.0.items, test_of e.1)) tests.old.entries ++ (id.items, test_of test) ∷ [] }
    ensures tallies { map {B = Tally} (λ e. arc_value e.1.tally) tests.new.entries ≡ map {B = Tally} (λ e. arc_value e.1.tally) tests.old.entries ++ arc_value test.tally ∷ [] }
{
    let _ = tests.insert(id, test);
}
