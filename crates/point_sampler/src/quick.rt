//! Points that are counted by their value and the index of their bins alone.
ghost use Rattle.std.specs.Prelude.{◌≡◌, ◌≢◌, ◌+ℤ◌, ◌≤ℤ◌, ℕ, ◌+◌, ◌-◌, ◌^◌, ◌<◌, None, pos, List, length, slice_index, All, AllPairs, IfSome, IsTrue};
ghost use Rattle.const_eval.specs.Terms.{typ_of as typ_of_term};
ghost use Rattle.design_data.specs.declared.infos.BinInfo.{BinInfo as Bin};
ghost use Rattle.design_data.specs.declared.infos.ItemInfo.{ItemInfo};
ghost use Rattle.record_codec.specs.Samples.{Env};
ghost use Rattle.point_sampler.specs.declared.state.PointState.{PointState};
ghost use Rattle.point_sampler.specs.Plans.{IsPlanOf};
ghost use Rattle.point_tables.specs.Tables.{IsLookupOf, places_from, has_value};
ghost use Rattle.point_sampler.specs.Points.{IsSample, PointStands, IsOutside};
ghost use Rattle.point_sampler.specs.Quick.{HasKeys, IsQuick, HasRoom, AreRaised};

use crate::machines::is_still;
use crate::plan::PointPlan;
use const_eval::laws::known_values_are_of_their_type;
use const_eval::{Bound, Typ, eval, typ};
use cov_base::{Int, highest_of, lowest_of};
use point_tables::Lookup;

/// The greatest key.
const MOST_KEY: i128 = 0xffff_ffff_ffff_ffff;

/// Whether the number has a key.
fn has_key(least: Int, number: Int) -> bool
    ensures low { IsTrue result → least ≤ℤ number }
    ensures high { IsTrue result → number ≤ℤ (least +ℤ pos (2 ^ 64 - 1)) }
{
    let key = number.get() - least.get();
    if key < 0 {
        return false;
    }
    if key > MOST_KEY {
        return false;
    }
    true
}

/// Whether each number of the type has a key.
fn has_keys(lookup: &Lookup, typ: Typ) -> bool
    ensures { IsTrue result → HasKeys lookup.now typ }
{
    let low = lowest_of(typ.width(), typ.is_signed());
    let high = highest_of(typ.width(), typ.is_signed());
    if !has_key(lookup.least, low) {
        return false;
    }
    has_key(lookup.least, high)
}

/// The key of a number that has one.
#[inline(always)]
fn key_within(least: Int, number: Int) -> u64
    requires low { least ≤ℤ number }
    requires high { number ≤ℤ (least +ℤ pos (2 ^ 64 - 1)) }
    ensures { number ≡ least +ℤ pos result }
{
    (number.get() - least.get()) as u64
}

/// The places of the bins that have the value, ascending.
#[inline(always)]
fn places_of<'a>(lookup: &'a Lookup, value: &Option<Int>) -> &'a [u32]
    requires { IfSome value.now (λ number.
        (lookup.now.least ≤ℤ number) × (number ≤ℤ (lookup.now.least +ℤ pos (2 ^ 64 - 1)))) }
    ensures { (bins : List Bin) → IsLookupOf bins lookup.now
        → result.now ≡ places_from (λ bin. has_value bins value.now bin.rule) 0 bins }
{
    match value {
        None => lookup.unknown.as_slice(),
        Some(number) => lookup.index.hits(key_within(lookup.least, *number)),
    }
}

/// Raises the counts at these places from the first number on.
#[inline(always)]
fn raise_each(first_bin: u32, met: &[u32], counts: &mut [u64])
    requires within { All (λ place. first_bin + place < length counts.old) met.now }
    requires once { AllPairs (λ a b. a ≢ b) met.now }
    ensures { AreRaised first_bin met.now counts.old counts.new }
{
    for place in met {
        let number = first_bin as usize + *place as usize;
        counts[number] = counts[number].saturating_add(1);
    }
}

impl PointPlan {
    /// Whether a point with this plan and the value `expr` can be counted by `count`, where it has no guard.
    pub fn is_quick(&self, expr: &Bound) -> bool
        ensures { IsTrue result → IsQuick self.now (typ_of_term expr.now) }
    {
        if !is_still(self) {
            return false;
        }
        if !self.entries.is_empty() {
            return false;
        }
        match &self.lookup {
            Some(lookup) => has_keys(lookup, typ(expr)),
            None => false,
        }
    }

    /// Takes a point with the value `expr`, no guard and a plan that is quick over a sample of its instance, whose values
    /// are `env`: raises the counts of the bins that are hit, the first of which has the number `first_bin`. It is what
    /// `sample` does, without the row; what the point remembers stays as it is. It takes no memory.
    #[inline(always)]
    pub fn count(&self, expr: &Bound, first_bin: u32, env: &[Option<Int>], counts: &mut [u64])
        requires quick { IsQuick self.now (typ_of_term expr.now) }
        requires room { HasRoom self.now first_bin (length counts.old) }
        ensures stands { (item : ItemInfo) (all : List Env) (m : ℕ) (state : PointState)
            → IsPlanOf item self.now → item.first_bin ≡ first_bin → item.guard ≡ None → IsSample all m env.now
            → PointStands item expr.now self.now all m state counts.old
            → PointStands item expr.now self.now all (m + 1) state counts.new }
        ensures others { (item : ItemInfo) → IsPlanOf item self.now → item.first_bin ≡ first_bin
            → (number : ℕ) → IsOutside item number → slice_index counts.new number ≡ slice_index counts.old number }
    {
        let value = eval(expr, env, None);
        known_values_are_of_their_type();
        let Some(lookup) = &self.lookup else {
            return;
        };
        raise_each(first_bin, places_of(lookup, &value), counts);
    }
}
