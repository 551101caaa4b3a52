//! What a store keeps of another design.
ghost use Rattle.std.specs.Prelude.{◌≡◌, length, map, option_map, slice_set, cond, IfOk, OnOk, List, ℕ};
ghost use Rattle.std.specs.Arc.{arc_value};
ghost use Rattle.tally.specs.declared.tally.Tally.{Tally};
ghost use Rattle.cov_history.specs.History.{Test};
ghost use Rattle.store_parts.specs.Words.{test_of};
ghost use Rattle.store_parts.specs.Putting.{put_path, is_put};

use crate::held::Kept;
use cov_base::Memory;
use cov_history::Amounts;
use cov_tree::Name;
use indexmap::IndexMap;
use std::sync::Arc;
use store_sums::{Branches, Runs, put_at};
use tally::Tally;

/// What is worked out of a design's nodes, of its tests' counts and of what is out.
#[derive(Drop)]
pub struct Remade {
    /// What is marked of its bins.
    pub runs: Runs,
    /// At each node, the path that is out.
    pub out: Vec<Option<Arc<Name>>>,
    /// How many paths are out.
    pub outs: u64,
}

/// A revision that nothing stands against but want of memory.
#[derive(Drop)]
pub struct Ready {
    /// What is kept of the new design.
    pub remade: Remade,
    /// What the history amounts to afterwards.
    pub after: Amounts,
}

/// Puts a path, if there is one, at the node that it finds: whether it did, as 0 or 1. The path is shared; Memory where that
/// can't be had.
pub fn put_found(
    branches: &Branches,
    path: &Option<Arc<Name>>,
    out: &mut Vec<Option<Arc<Name>>>,
) -> Result<u64, Memory>
    ensures out { OnOk result (map (λ p. option_map arc_value p) out.new.items ≡ put_path branches.now (option_map arc_value path.now) (map (λ p. option_map arc_value p) out.old.items)) }
    ensures count { IfOk result (λ one. one ≡ cond (is_put branches.now (option_map arc_value path.now)) 1 0) }
{
    let Some(path) = path else {
        return Ok(0);
    };
    let Some(node) = branches.find(path.as_slice()) else {
        return Ok(0);
    };
    put_at(out, node as usize, path.clone()?);
    Ok(1)
}

/// Puts a tally in place of a test's.
fn set_tally(tests: &mut IndexMap<Vec<u8>, Kept>, place: usize, tally: Arc<Tally>)
    ensures tests { map {B = List ℕ × Test} (λ e. (e.0.items, test_of e.1)) tests.new.entries ≡ map {B = List ℕ × Test} (λ e. (e.0.items, test_of e.1)) tests.old.entries }
    ensures tallies { map {B = Tally} (λ e. arc_value e.1.tally) tests.new.entries ≡ slice_set (map {B = Tally} (λ e. arc_value e.1.tally) tests.old.entries) place (arc_value tally) }
{
    if let Some(test) = tests.get_index_mut(place) {
        test.tally = tally;
    }
}

/// Puts these tallies, of which there are as many as tests, in place of the tests'.
pub fn set_tallies(tests: &mut IndexMap<Vec<u8>, Kept>, tallies: Vec<Arc<Tally>>)
    requires { length tests.old.entries ≡ length tallies.items }
    ensures tests { map {B = List ℕ × Test} (λ e. (e.0.items, test_of e.1)) tests.new.entries ≡ map {B = List ℕ × Test} (λ e. (e.0.items, test_of e.1)) tests.old.entries }
    ensures tallies { map {B = Tally} (λ e. arc_value e.1.tally) tests.new.entries ≡ map {B = Tally} arc_value tallies.items }
{
    let mut left = tallies;
    while let Some(tally) = left.pop() {
        set_tally(tests, left.as_slice().len(), tally);
    }
}
