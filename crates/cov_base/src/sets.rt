//! Sets of whole numbers, as intervals in normal form.
ghost use Rattle.std.specs.Prelude.{◌≡◌, ℤ, ℕ, List, [], ◌++◌, ◌≤◌, ◌*◌, ◌^◌, ◌↔◌, ◌&&◌, ◌||◌, not, IsTrue, IfOk, length, slice_get};
ghost use Rattle.cov_spec.specs.Ranges.{InRanges};
ghost use Rattle.cov_base.specs.Sets.{written, set_of, is_in, without, IsNormalForm};

mod counts;
mod kept;
mod merge;
mod order;
mod search;

use crate::Memory;
use crate::int::Int;
use kept::Kept;
use std::alloc::Global;
use std::marker::Model;
use std::sync::Arc;

/// A set of numbers: the list of its intervals, ascending, each with its low and its high end, no two of which
/// overlap or touch. Two sets of the same numbers are the same list. A set and its copies stand once in memory.
pub struct ValueSet {
    kept: Option<Arc<Kept>>,
}

impl Drop for ValueSet {
    fn drop(self) {
        let ValueSet { kept: _ } = self;
    }
}

impl Model for ValueSet {
    ghost use Rattle.std.specs.Prelude.{ℤ, List};

    ghost Value = { List (ℤ × ℤ) };

    ghost use Rattle.cov_base.specs.Kept.{ranges_in, IsKeptIn};

    ghost view = { λ set. ranges_in set.kept };

    ghost invariant = { λ set. IsKeptIn set.kept };
}

impl PartialEq for ValueSet {
    ghost use Rattle.std.specs.Prelude.{ℤ};
    ghost use Rattle.std.specs.Cmp.{partial_equiv_from_equiv, and_equiv, on_equiv, int_eq_equiv};
    ghost use Rattle.std.specs.Cmp.Lexicographic.{pointwise, lists_equiv};
    ghost use Rattle.cov_base.specs.Sets.{is_same_range};

    ghost eq = { pointwise is_same_range };

    ghost laws = { partial_equiv_from_equiv (lists_equiv (and_equiv (on_equiv (λ (r : ℤ × ℤ). r.0) int_eq_equiv) (on_equiv (λ (r : ℤ × ℤ). r.1) int_eq_equiv))) };

    fn eq(&self, other: &ValueSet) -> bool {
        self.intervals() == other.intervals()
    }
}

impl Eq for ValueSet {
    ghost use Rattle.std.specs.Prelude.{ℤ};
    ghost use Rattle.std.specs.Cmp.{and_equiv, on_equiv, int_eq_equiv};
    ghost use Rattle.std.specs.Cmp.Lexicographic.{lists_equiv};

    ghost laws = { lists_equiv (and_equiv (on_equiv (λ (r : ℤ × ℤ). r.0) int_eq_equiv) (on_equiv (λ (r : ℤ × ℤ). r.1) int_eq_equiv)) };
}

/// A set of intervals in normal form.
fn kept_set(alloc: Global, intervals: Vec<(Int, Int)>) -> Result<ValueSet, Memory>
    requires { IsNormalForm intervals.items }
    ensures { IfOk result (λ set. set ≡ intervals.items) }
{
    let kept = kept::shared(alloc, intervals)?;
    Ok(ValueSet { kept })
}

impl ValueSet {
    /// The empty set. It takes no memory.
    pub fn new(_alloc: Global) -> ValueSet
        ensures { result ≡ [] }
    {
        ValueSet { kept: None }
    }

    /// The numbers of all ranges, each given by its low and its high end, in any order. A range with its ends the
    /// wrong way round stands for no number.
    pub fn from_ranges(alloc: Global, ranges: &[(Int, Int)]) -> Result<ValueSet, Memory>
        ensures set { IfOk result (λ set. set ≡ set_of (written ranges.now)) }
        ensures numbers { IfOk result
            (λ set. (v : ℤ) → is_in (written set) v ≡ is_in (written ranges.now) v) }
    {
        let sorted = order::ordered(alloc, ranges)?;
        let mut intervals = Vec::new(alloc);
        merge::join_all(&mut intervals, sorted.as_slice())?;
        kept_set(alloc, intervals)
    }

    /// Whether the number is in the set. It takes a binary search with no branch that depends on the numbers.
    pub fn contains(&self, v: Int) -> bool
        ensures value { result ≡ is_in (written self.now) v }
        ensures in_ranges { IsTrue result ↔ InRanges v self.now }
    {
        search::has(kept::ranges(&self.kept), v)
    }

    /// How many numbers are in the set: at most 2^64 + 2^63.
    pub fn count(&self) -> u128
        ensures value { result ≡ length (written self.now) }
        ensures bound { result ≤ 3 * 2 ^ 63 }
    {
        kept::total(&self.kept)
    }

    /// The number at place k, in ascending order, the first one being at 0; None from the count on. It takes a
    /// binary search.
    pub fn nth(&self, k: u128) -> Option<Int>
        ensures { result ≡ slice_get (written self.now) k }
    {
        kept::nth(&self.kept, k)
    }

    /// The intervals, ascending, each with its low and its high end.
    pub fn intervals(&self) -> &[(Int, Int)]
        ensures value { result.now ≡ self.now }
        ensures normal { IsNormalForm self.now }
        ensures set_of_written { set_of (written self.now) ≡ self.now }
        ensures unique { (other : List (ℤ × ℤ)) → IsNormalForm other →
            ((v : ℤ) → is_in (written other) v ≡ is_in (written self.now) v) → other ≡ self.now }
    {
        kept::ranges(&self.kept)
    }

    /// The numbers of both sets.
    pub fn union(&self, alloc: Global, other: &ValueSet) -> Result<ValueSet, Memory>
        ensures set { IfOk result (λ set. set ≡ set_of (written self.now ++ written other.now)) }
        ensures numbers { IfOk result
            (λ set. (v : ℤ) → is_in (written set) v ≡
            (is_in (written self.now) v || is_in (written other.now) v)) }
    {
        let intervals = merge::union_of(
            alloc,
            kept::ranges(&self.kept),
            kept::ranges(&other.kept),
        )?;
        kept_set(alloc, intervals)
    }

    /// The numbers of this set that are not in the other.
    pub fn minus(&self, alloc: Global, other: &ValueSet) -> Result<ValueSet, Memory>
        ensures set { IfOk result
            (λ set. set ≡ set_of (without (written self.now) (written other.now))) }
        ensures numbers { IfOk result
            (λ set. (v : ℤ) → is_in (written set) v ≡
            (is_in (written self.now) v && not (is_in (written other.now) v))) }
    {
        let intervals = merge::without(alloc, kept::ranges(&self.kept), kept::ranges(&other.kept))?;
        kept_set(alloc, intervals)
    }

    /// The same set once more. It copies nothing.
    pub fn copy(&self, _alloc: Global) -> Result<ValueSet, Memory>
        ensures { IfOk result (λ set. set ≡ self.now) }
    {
        let kept = match &self.kept {
            Some(kept) => Some(kept.clone()?),
            None => None,
        };
        Ok(ValueSet { kept })
    }
}
