//! One sample of a point.
ghost use Rattle.std.specs.Prelude.{◌≡◌, ◌∷◌, ◌++◌, ◌+ℤ◌, [], ℕ, ◌+◌, ◌≤◌, pos, List, length, slice_index, Some, IfSome, OnOk};
ghost use Rattle.design_data.specs.Laws.{Value};
ghost use Rattle.record_codec.specs.Samples.{Env};
ghost use Rattle.point_tables.specs.Tables.{IsPoint, IsLookupOf};
ghost use Rattle.point_sampler.specs.Plans.{IsPlanOf, IsStill};
ghost use Rattle.point_sampler.specs.Points.{IsSample, FitsPlan, Remembers, PointStands, RowStands, IsOutside};
ghost use Rattle.point_sampler.specs.Met.{ValueTaken};

use crate::counting::count_met;
use crate::machines::{is_still, push_value};
use crate::plan::PointPlan;
use crate::state::PointState;
use const_eval::{Bound, eval};
use cov_base::{Int, Memory};
use cov_counting::holds;
use design_data::ItemInfo;
use point_tables::{Lookup, add_values, key_of};

/// The key of a value; None where it is Unknown or has none.
#[inline(always)]
fn key_in(lookup: &Lookup, value: &Option<Int>) -> Option<u64>
    ensures { IfSome result (λ key. value.now ≡ Some (lookup.now.least +ℤ pos key)) }
{
    match value {
        None => None,
        Some(number) => key_of(lookup.least, *number),
    }
}

/// Takes a point of bins of values alone over the next value of its trace, which has this key: its bins are counted as the
/// index has them. It has nothing to remember.
#[inline(always)]
fn sample_key(
    plan: &PointPlan,
    lookup: &Lookup,
    key: u64,
    item: &ItemInfo,
    env: &[Option<Int>],
    value: &Option<Int>,
    counts: &mut [u64],
    row: &mut Vec<u32>,
) -> Result<(), Memory>
    requires point { IsPoint item.now }
    requires plan { IsPlanOf item.now plan.now }
    requires still { IsStill plan.now }
    requires lookup { IsLookupOf item.now.bins lookup.now }
    requires key { value.now ≡ Some (lookup.now.least +ℤ pos key) }
    requires counts { item.now.first_bin + length item.now.bins ≤ length counts.old }
    requires none { row.old.items ≡ [] }
    ensures taken { OnOk result ((w : List Value)
        → ValueTaken item.now env.now w value.now counts.old counts.new row.new.items) }
    ensures others { OnOk result ((number : ℕ) → IsOutside item.now number
        → slice_index counts.new number ≡ slice_index counts.old number) }
{
    let hits = lookup.index.hits(key);
    count_met(plan.entries.as_slice(), item, env, hits, counts, row)?;
    Ok(())
}

/// Takes any point over the next value of its trace.
#[inline(never)]
fn sample_any(
    plan: &PointPlan,
    item: &ItemInfo,
    state: &mut PointState,
    env: &[Option<Int>],
    value: &Option<Int>,
    counts: &mut [u64],
    row: &mut Vec<u32>,
) -> Result<(), Memory>
    requires point { IsPoint item.now }
    requires plan { IsPlanOf item.now plan.now }
    requires fits { FitsPlan plan.now state.old }
    requires counts { item.now.first_bin + length item.now.bins ≤ length counts.old }
    requires none { row.old.items ≡ [] }
    ensures fits { OnOk result (FitsPlan plan.now state.new) }
    ensures remembers { OnOk result ((w : List Value) → Remembers plan.now state.old w
        → Remembers plan.now state.new (w ++ value.now ∷ [])) }
    ensures taken { OnOk result ((w : List Value) → Remembers plan.now state.old w
        → ValueTaken item.now env.now w value.now counts.old counts.new row.new.items) }
    ensures others { OnOk result ((number : ℕ) → IsOutside item.now number
        → slice_index counts.new number ≡ slice_index counts.old number) }
{
    push_value(plan, state, value)?;
    add_values(&plan.lookup, &plan.questions, item, value, &mut state.met)?;
    count_met(
        plan.entries.as_slice(),
        item,
        env,
        state.met.as_slice(),
        counts,
        row,
    )?;
    Ok(())
}

/// Takes the point over the next value of its trace.
#[inline(always)]
fn sample_value(
    plan: &PointPlan,
    item: &ItemInfo,
    state: &mut PointState,
    env: &[Option<Int>],
    value: &Option<Int>,
    counts: &mut [u64],
    row: &mut Vec<u32>,
) -> Result<(), Memory>
    requires point { IsPoint item.now }
    requires plan { IsPlanOf item.now plan.now }
    requires fits { FitsPlan plan.now state.old }
    requires counts { item.now.first_bin + length item.now.bins ≤ length counts.old }
    requires none { row.old.items ≡ [] }
    ensures fits { OnOk result (FitsPlan plan.now state.new) }
    ensures remembers { OnOk result ((w : List Value) → Remembers plan.now state.old w
        → Remembers plan.now state.new (w ++ value.now ∷ [])) }
    ensures taken { OnOk result ((w : List Value) → Remembers plan.now state.old w
        → ValueTaken item.now env.now w value.now counts.old counts.new row.new.items) }
    ensures others { OnOk result ((number : ℕ) → IsOutside item.now number
        → slice_index counts.new number ≡ slice_index counts.old number) }
{
    if is_still(plan) {
        if let Some(lookup) = &plan.lookup {
            if let Some(key) = key_in(lookup, value) {
                sample_key(plan, lookup, key, item, env, value, counts, row)?;
                return Ok(());
            }
        }
    }
    sample_any(plan, item, state, env, value, counts, row)?;
    Ok(())
}

impl PointPlan {
    /// Takes the point with the value `expr` over a sample of its instance, whose values are `env`: raises the counts of
    /// the bins that are hit, and puts into `row` the numbers of those among its coverage bins. `counts` are those of the
    /// whole design. A sample takes memory only where more bins are met, or more windows are open, than at each sample
    /// before, and where the first values of the trace are kept, 240 of them at most. After want of memory the state and
    /// the counts are of no use.
    #[inline(always)]
    pub fn sample(
        &self,
        item: &ItemInfo,
        expr: &Bound,
        state: &mut PointState,
        env: &[Option<Int>],
        counts: &mut [u64],
        row: &mut Vec<u32>,
    ) -> Result<(), Memory>
        requires point { IsPoint item.now }
        requires plan { IsPlanOf item.now self.now }
        requires fits { FitsPlan self.now state.old }
        requires counts { item.now.first_bin + length item.now.bins ≤ length counts.old }
        ensures fits { OnOk result (FitsPlan self.now state.new) }
        ensures stands { OnOk result ((all : List Env) (m : ℕ) → IsSample all m env.now
            → PointStands item.now expr.now self.now all m state.old counts.old
            → PointStands item.now expr.now self.now all (m + 1) state.new counts.new) }
        ensures row { OnOk result ((all : List Env) (m : ℕ) → IsSample all m env.now
            → PointStands item.now expr.now self.now all m state.old counts.old
            → RowStands item.now expr.now all m row.new.items) }
        ensures others { OnOk result ((number : ℕ) → IsOutside item.now number
            → slice_index counts.new number ≡ slice_index counts.old number) }
    {
        row.clear();
        if !holds(&item.guard, env) {
            return Ok(());
        }
        let value = eval(expr, env, None);
        sample_value(self, item, state, env, &value, counts, row)?;
        Ok(())
    }
}
