//! Listed numbers filtered.
ghost use Rattle.std.specs.Prelude.{◌≡◌, ℤ, ℕ, ◌<◌, ◌≤◌, ◌↔◌, Bool, [], ◌∷◌, ◌++◌, length, filter, Err, IfOk, OnOk};
ghost use Rattle.std.specs.List.{items_where_true};
ghost use Rattle.cov_base.specs.Sets.{written, span, IsInt};
ghost use Rattle.cov_ground.specs.Limits.{most_values};
ghost use Rattle.value_bins.specs.Listed.{Keeps};

use crate::ranges::count_of;
use crate::{Elems, FilterFault};
use cov_base::{Int, Memory, size_of};
use cov_ground::limits::MOST_VALUES;
use std::alloc::Global;

/// Adds a number, if the filter keeps it.
fn keep_number<F: Fn(Int) -> bool>(
    kept: &mut Vec<(Int, Int)>,
    number: Int,
    keep: &F,
) -> Result<(), Memory>
    requires { (v : ℤ) → IsInt v → F.pre keep.now v }
    ensures { OnOk result ((answer : Bool) × (IsInt number × F.post keep.now number answer) × (written kept.new.items ≡ written kept.old.items ++ items_where_true (answer ∷ []) (number ∷ []))) }
{
    // an `Int` is in its range
    let _number = number.get();
    if keep(number) {
        kept.push((number, number))?;
    }
    Ok(())
}

/// Adds the numbers of a range that the filter keeps.
fn keep_numbers<F: Fn(Int) -> bool>(
    kept: &mut Vec<(Int, Int)>,
    low: Int,
    high: Int,
    keep: &F,
) -> Result<(), Memory>
    requires { (v : ℤ) → IsInt v → F.pre keep.now v }
    ensures { OnOk result (Keeps (λ v b. IsInt v × F.post keep.now v b) (span (low, high)) (written kept.old.items) (written kept.new.items)) }
{
    for offset in 0..size_of(low, high) {
        keep_number(kept, low.plus(offset), keep)?;
    }
    Ok(())
}

/// The listed numbers that the filter keeps, in order (`with`, IEEE 1800-2017, 19.5.1.1). It is asked once of each
/// listed number, duplicates too, in order, and of 1,048,576 numbers at most: where more are listed, it isn't asked at
/// all.
pub fn filter_with<F: Fn(Int) -> bool>(
    alloc: Global,
    elems: &Elems,
    keep: &F,
) -> Result<Elems, FilterFault>
    requires { (v : ℤ) → IsInt v → F.pre keep.now v }
    ensures asked { IfOk result (λ kept.
        Keeps (λ v b. IsInt v × F.post keep.now v b) (written elems.now) [] (written kept)) }
    // where the filter is a test, what is kept is what passes it
    ensures kept { IfOk result (λ kept. (test : ℤ → Bool)
        → ((v : ℤ) (b : Bool) → IsInt v → F.post keep.now v b → b ≡ test v)
        → written kept ≡ filter test (written elems.now)) }
    ensures most { OnOk result (length (written elems.now) ≤ most_values) }
    ensures too_many { (count : ℕ) → (result ≡ Err (FilterFault.TooManyValues count))
        ↔ ((most_values < length (written elems.now)) × (count ≡ length (written elems.now))) }
{
    let count = count_of(elems.as_slice());
    if count > MOST_VALUES as u128 {
        return Err(FilterFault::TooManyValues { count });
    }
    let mut kept = Vec::new(alloc);
    for range in elems.as_slice() {
        keep_numbers(&mut kept, range.0, range.1, keep)?;
    }
    Ok(Elems::of(kept))
}
