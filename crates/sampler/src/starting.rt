//! What stands before the first sample.
ghost use Rattle.std.specs.Prelude.{◌≡◌, ℕ, List, length, IfOk};
ghost use Rattle.record_codec.specs.Samples.{Env};
ghost use Rattle.sampler_plans.specs.ItemPlans.{IsPlanOf, ArePlans};
ghost use Rattle.sampler.specs.Standing.{FitsItem, Stands, AreChosen, AllFit, AllStand};
ghost use Rattle.sampler.specs.Walking.{IsWork, InstFits, AllInstFit};
ghost use Rattle.sampler.specs.Values.{places};
ghost use Rattle.sampler.specs.Starting.{IsZeroAt, AreAllZero, AllInstStart, AreUnknown};

use crate::instance::{InstState, ItemState, chosen_at};
use cov_base::{Int, Memory};
use cov_ground::limits::{MOST_ARGUMENTS, MOST_SIGNALS};
use cov_tree::{List, Shared};
use cross_sampler::CrossState;
use design_data::{InstInfo, ItemInfo};
use point_sampler::PointState;
use sampler_plans::{InstPlan, ItemPlan};
use std::alloc::Global;

/// A place for each signal and argument.
const PLACES: usize = MOST_SIGNALS + MOST_ARGUMENTS;

/// What an item keeps before the first sample.
fn item_state(
    alloc: Global,
    items: &[ItemInfo],
    item: &ItemInfo,
    plan: &ItemPlan,
) -> Result<ItemState, Memory>
    requires { IsPlanOf items.now item.now item.now.shape plan.now }
    ensures fits { IfOk result (λ state. FitsItem item.now plan.now state) }
    ensures stands { IfOk result (λ state. (all : List Env) (counts : List ℕ) → IsZeroAt item.now counts → Stands items.now item.now all 0 item.now.shape plan.now state counts) }
{
    let _ = items;
    match plan {
        ItemPlan::Point(plan) => Ok(ItemState::Point(PointState::start(alloc, plan.get())?)),
        ItemPlan::Cross(_) => Ok(ItemState::Cross(CrossState::new(
            alloc,
            item.bins.as_slice().len(),
        )?)),
    }
}

/// What the chosen items of an instance keep before the first sample.
fn item_states(
    alloc: Global,
    items: &[ItemInfo],
    plans: &[ItemPlan],
    chosen: &[u32],
) -> Result<Vec<ItemState>, Memory>
    requires same { length plans.now ≡ length items.now }
    requires plans { ArePlans items.now plans.now }
    requires chosen { AreChosen items.now chosen.now }
    ensures fits { IfOk result (λ states. AllFit items.now plans.now chosen.now states.items) }
    ensures stands { IfOk result (λ states. (all : List Env) (counts : List ℕ) → AreAllZero counts → AllStand items.now plans.now chosen.now all (λ shape. 0) states.items counts) }
{
    let mut states = Vec::with_capacity(alloc, chosen.len())?;
    for i in 0..chosen.len() {
        let t = chosen_at(items, chosen, i);
        states.push(item_state(alloc, items, &items[t], &plans[t])?)?;
    }
    Ok(states)
}

/// An empty row for each item.
pub(crate) fn empty_rows(alloc: Global, count: usize) -> Result<Vec<Vec<u32>>, Memory>
    ensures { IfOk result (λ rows. length rows.items ≡ count) }
{
    let mut rows = Vec::with_capacity(alloc, count)?;
    for index in 0..count {
        let _ = index;
        rows.push(Vec::new(alloc))?;
    }
    Ok(rows)
}

/// What an instance keeps before the first sample.
fn inst_state(
    alloc: Global,
    items: &[ItemInfo],
    plans: &[ItemPlan],
    chosen: &[u32],
) -> Result<InstState, Memory>
    requires same { length plans.now ≡ length items.now }
    requires plans { ArePlans items.now plans.now }
    requires chosen { AreChosen items.now chosen.now }
    ensures fits { IfOk result (λ kept. InstFits items.now plans.now chosen.now kept) }
    ensures stands { IfOk result (λ kept. (all : List Env) (counts : List ℕ) → AreAllZero counts → AllStand items.now plans.now chosen.now all (λ shape. 0) kept.states.items counts) }
{
    let states = item_states(alloc, items, plans, chosen)?;
    let rows = empty_rows(alloc, items.len())?;
    Ok(InstState { states, rows })
}

/// What the instances keep before the first sample.
pub(crate) fn inst_states(
    alloc: Global,
    instances: &[InstInfo],
    plans: &[InstPlan],
    share: &[Shared<List<u32>>],
    counts: &[u64],
) -> Result<Vec<InstState>, Memory>
    requires work { IsWork instances.now plans.now share.now (length counts.now) }
    ensures fits { IfOk result (λ kept. AllInstFit instances.now plans.now share.now kept.items) }
    ensures stand { IfOk result (λ kept. AreAllZero counts.now → AllInstStart instances.now plans.now share.now kept.items counts.now) }
{
    let _ = counts;
    let mut kept = Vec::new(alloc);
    for j in 0..instances.len() {
        let items = instances[j].items.as_slice();
        let own = plans[j].items.get().as_slice();
        let chosen = share[j].get().as_slice();
        kept.push(inst_state(alloc, items, own, chosen)?)?;
    }
    Ok(kept)
}

/// The values before the first event: all are Unknown.
pub(crate) fn unknown_values(alloc: Global) -> Result<Vec<Option<Int>>, Memory>
    ensures same { IfOk result (λ values. length values.items ≡ places) }
    ensures unknown { IfOk result (λ values. AreUnknown values.items) }
{
    let mut values = Vec::new(alloc);
    for place in 0..PLACES {
        let _ = place;
        values.push(None)?;
    }
    Ok(values)
}
