//! One sample of an instance.
ghost use Rattle.std.specs.Prelude.{◌≡◌, ◌≢◌, ◌+◌, ◌<◌, ◌≤◌, ℕ, List, length, slice_get, Some, true, IfOk, OnOk};
ghost use Rattle.cross_sampler.specs.Numbers.{row_at};
ghost use Rattle.design_data.specs.Bins.{is_point as is_point_of};
ghost use Rattle.record_codec.specs.Samples.{Env};
ghost use Rattle.point_sampler.specs.Points.{RowStands as PointRowStands};
ghost use Rattle.sampler_plans.specs.ItemPlans.{IsPointPlan, IsCrossPlan, IsPlanOf, ArePlans};
ghost use Rattle.sampler.specs.Standing.{IsSample, FitsItem, PointStands, CrossStands, Stands, point_first, RowStands, AreNumbered, AreChosen, IsChosen, IsCovered, ArePoints, AllFit, AllStand, RowsStand, KeepsOthers, CrossTaken, ItemTaken, AllTaken};
ghost use Rattle.std.specs.List.{AllByRecursion};
ghost use Rattle.sampler.specs.Walking.{InstFits};

use const_eval::Bound;
use cov_base::{Int, Memory};
use cross_sampler::CrossState;
use design_data::{ItemInfo, ItemShape};
use point_sampler::PointState;
use sampler_plans::ItemPlan;

/// What an item keeps along the samples of its instance.
#[derive(Drop)]
pub enum ItemState {
    Point(PointState),
    Cross(CrossState),
}

/// What an instance keeps along its samples.
#[derive(Drop)]
pub struct InstState {
    /// What each item keeps that is taken along.
    pub states: Vec<ItemState>,
    /// For each item a row: of a point that is taken along, which of its coverage bins the latest sample hits.
    pub rows: Vec<Vec<u32>>,
}

/// Takes a point over a sample, and puts into `row` which of its coverage bins are hit.
fn point_taken(
    item: &ItemInfo,
    expr: &Bound,
    plan: &ItemPlan,
    state: &mut ItemState,
    row: &mut Vec<u32>,
    env: &[Option<Int>],
    counts: &mut [u64],
) -> Result<(), Memory>
    requires plan { IsPointPlan item.now plan.now }
    requires fits { FitsItem item.now plan.now state.old }
    requires counts { item.now.first_bin + length item.now.bins ≤ length counts.old }
    ensures fits { OnOk result (FitsItem item.now plan.now state.new) }
    ensures stands { OnOk result ((all : List Env) (m : ℕ) → IsSample all m env.now
        → PointStands item.now expr.now all m plan.now state.old counts.old → PointStands item.now expr.now all (m + 1) plan.now state.new counts.new) }
    ensures row { OnOk result ((all : List Env) (m : ℕ) → IsSample all m env.now
        → PointStands item.now expr.now all m plan.now state.old counts.old → PointRowStands item.now expr.now all m row.new.items) }
    ensures others { OnOk result (KeepsOthers item.now counts.old counts.new) }
{
    match plan {
        ItemPlan::Point(plan) => match state {
            ItemState::Point(state) => plan.get().sample(item, expr, state, env, counts, row),
            ItemState::Cross(_) => Ok(()),
        },
        ItemPlan::Cross(_) => Ok(()),
    }
}

/// Takes an item over a sample, if it is a point.
fn take_point(
    items: &[ItemInfo],
    item: &ItemInfo,
    plan: &ItemPlan,
    state: &mut ItemState,
    row: &mut Vec<u32>,
    env: &[Option<Int>],
    counts: &mut [u64],
) -> Result<(), Memory>
    requires plan { IsPlanOf items.now item.now item.now.shape plan.now }
    requires fits { FitsItem item.now plan.now state.old }
    requires counts { item.now.first_bin + length item.now.bins ≤ length counts.old }
    ensures fits { OnOk result (FitsItem item.now plan.now state.new) }
    ensures stands { OnOk result ((all : List Env) (m : ℕ) → IsSample all m env.now
        → Stands items.now item.now all m item.now.shape plan.now state.old counts.old
        → Stands items.now item.now all (point_first item.now.shape m) item.now.shape plan.now state.new counts.new) }
    ensures row { OnOk result ((all : List Env) (m : ℕ) → IsSample all m env.now
        → Stands items.now item.now all m item.now.shape plan.now state.old counts.old → RowStands item.now all m item.now.shape row.new.items) }
    ensures others { OnOk result (KeepsOthers item.now counts.old counts.new) }
{
    let _ = items;
    match &item.shape {
        ItemShape::Point(expr) => point_taken(item, expr, plan, state, row, env, counts),
        ItemShape::Cross(_) => Ok(()),
    }
}

/// The same, where the row is that of the item's index.
fn take_point_at(
    items: &[ItemInfo],
    item: &ItemInfo,
    plan: &ItemPlan,
    state: &mut ItemState,
    rows: &mut Vec<Vec<u32>>,
    index: usize,
    env: &[Option<Int>],
    counts: &mut [u64],
) -> Result<(), Memory>
    requires plan { IsPlanOf items.now item.now item.now.shape plan.now }
    requires fits { FitsItem item.now plan.now state.old }
    requires counts { item.now.first_bin + length item.now.bins ≤ length counts.old }
    requires row { index < length rows.old.items }
    ensures fits { OnOk result (FitsItem item.now plan.now state.new) }
    ensures rows { OnOk result (length rows.new.items ≡ length rows.old.items) }
    ensures stands { OnOk result ((all : List Env) (m : ℕ) → IsSample all m env.now
        → Stands items.now item.now all m item.now.shape plan.now state.old counts.old
        → Stands items.now item.now all (point_first item.now.shape m) item.now.shape plan.now state.new counts.new) }
    ensures row { OnOk result ((all : List Env) (m : ℕ) → IsSample all m env.now
        → Stands items.now item.now all m item.now.shape plan.now state.old counts.old → RowStands item.now all m item.now.shape (row_at rows.new.items index)) }
    ensures other_rows { OnOk result ((k : ℕ) → k ≢ index → row_at rows.new.items k ≡ row_at rows.old.items k) }
    ensures others { OnOk result (KeepsOthers item.now counts.old counts.new) }
{
    take_point(items, item, plan, state, &mut rows[index], env, counts)?;
    Ok(())
}

/// The index of the chosen item at this place.
pub(crate) fn chosen_at(items: &[ItemInfo], chosen: &[u32], place: usize) -> usize
    requires chosen { AreChosen items.now chosen.now }
    requires place { place < length chosen.now }
    ensures at { slice_get chosen.now place ≡ Some result }
    ensures within { result < length items.now }
{
    let _ = items;
    chosen[place] as usize
}

/// Whether the item is a point.
#[inline(always)]
fn is_point(item: &ItemInfo) -> bool
    ensures { result ≡ is_point_of item.now.shape }
{
    match &item.shape {
        ItemShape::Point(_) => true,
        ItemShape::Cross(_) => false,
    }
}

/// Whether both hold.
#[inline(always)]
fn both(first: bool, second: bool) -> bool
    ensures { result ≡ true → (first ≡ true) × (second ≡ true) }
{
    first && second
}

/// Takes the points among the chosen items of an instance over a sample, and says whether all items are points.
fn take_points(
    items: &[ItemInfo],
    plans: &[ItemPlan],
    chosen: &[u32],
    states: &mut Vec<ItemState>,
    rows: &mut Vec<Vec<u32>>,
    env: &[Option<Int>],
    counts: &mut [u64],
) -> Result<bool, Memory>
    requires plans { ArePlans items.now plans.now }
    requires chosen { AreChosen items.now chosen.now }
    requires fits { AllFit items.now plans.now chosen.now states.old.items }
    requires rows { length rows.old.items ≡ length items.now }
    requires numbered { AreNumbered items.now (length counts.old) }
    ensures fits { OnOk result (AllFit items.now plans.now chosen.now states.new.items) }
    ensures rows { OnOk result (length rows.new.items ≡ length items.now) }
    ensures taken { OnOk result ((all : List Env) (m : ℕ) → IsSample all m env.now → AllStand items.now plans.now chosen.now all (λ shape. m) states.old.items counts.old
        → AllTaken items.now plans.now chosen.now all (λ shape. point_first shape m) counts.old states.new.items counts.new) }
    ensures hit { OnOk result ((all : List Env) (m : ℕ) → IsSample all m env.now → AllStand items.now plans.now chosen.now all (λ shape. m) states.old.items counts.old
        → RowsStand items.now chosen.now all m rows.new.items) }
    ensures alone { IfOk result (λ alone. alone ≡ true → ArePoints items.now chosen.now) }
{
    let mut alone = true;
    for i in 0..chosen.len() {
        let t = chosen_at(items, chosen, i);
        let item = &items[t];
        alone = both(alone, is_point(item));
        take_point_at(items, item, &plans[t], &mut states[i], rows, t, env, counts)?;
    }
    Ok(alone)
}

/// Takes a cross over a sample.
fn cross_taken(
    items: &[ItemInfo],
    item: &ItemInfo,
    axes: &[u32],
    plan: &ItemPlan,
    state: &mut ItemState,
    rows: &[Vec<u32>],
    env: &[Option<Int>],
    counts: &mut [u64],
) -> Result<(), Memory>
    requires plan { IsCrossPlan items.now item.now axes.now plan.now }
    requires fits { FitsItem item.now plan.now state.old }
    requires counts { item.now.first_bin + length item.now.bins ≤ length counts.old }
    ensures fits { OnOk result (FitsItem item.now plan.now state.new) }
    ensures taken { OnOk result ((all : List Env) (m : ℕ) (chosen : List ℕ) → IsSample all m env.now → AllByRecursion (IsChosen chosen) axes.now → RowsStand items.now chosen all m rows.now
        → CrossStands items.now item.now axes.now all m state.old counts.old
        → CrossTaken items.now item.now axes.now all (m + 1) counts.old state.new counts.new) }
{
    let _ = items;
    match plan {
        ItemPlan::Cross(plan) => match state {
            ItemState::Cross(state) => {
                plan.get().sample(item, axes, state, env, rows, counts)?;
                Ok(())
            }
            ItemState::Point(_) => Ok(()),
        },
        ItemPlan::Point(_) => Ok(()),
    }
}

/// Takes an item over a sample, if it is a cross.
fn take_cross(
    items: &[ItemInfo],
    item: &ItemInfo,
    plan: &ItemPlan,
    state: &mut ItemState,
    rows: &[Vec<u32>],
    env: &[Option<Int>],
    counts: &mut [u64],
) -> Result<(), Memory>
    requires plan { IsPlanOf items.now item.now item.now.shape plan.now }
    requires fits { FitsItem item.now plan.now state.old }
    requires counts { item.now.first_bin + length item.now.bins ≤ length counts.old }
    ensures fits { OnOk result (FitsItem item.now plan.now state.new) }
    ensures taken { OnOk result ((all : List Env) (m : ℕ) (chosen : List ℕ) → IsSample all m env.now → IsCovered chosen item.now.shape → RowsStand items.now chosen all m rows.now
        → Stands items.now item.now all (point_first item.now.shape m) item.now.shape plan.now state.old counts.old
        → ItemTaken items.now item.now all (m + 1) plan.now counts.old state.new counts.new) }
{
    match &item.shape {
        ItemShape::Point(_) => Ok(()),
        ItemShape::Cross(axes) => {
            cross_taken(items, item, axes.as_slice(), plan, state, rows, env, counts)?;
            Ok(())
        }
    }
}

/// Takes the crosses among the chosen items of an instance over a sample, after its points.
#[inline(never)]
fn take_crosses(
    items: &[ItemInfo],
    plans: &[ItemPlan],
    chosen: &[u32],
    states: &mut Vec<ItemState>,
    rows: &[Vec<u32>],
    env: &[Option<Int>],
    counts: &mut [u64],
) -> Result<(), Memory>
    requires plans { ArePlans items.now plans.now }
    requires chosen { AreChosen items.now chosen.now }
    requires fits { AllFit items.now plans.now chosen.now states.old.items }
    requires numbered { AreNumbered items.now (length counts.old) }
    ensures fits { OnOk result (AllFit items.now plans.now chosen.now states.new.items) }
    ensures taken { OnOk result ((all : List Env) (m : ℕ) → IsSample all m env.now → RowsStand items.now chosen.now all m rows.now
        → AllStand items.now plans.now chosen.now all (λ shape. point_first shape m) states.old.items counts.old
        → AllTaken items.now plans.now chosen.now all (λ shape. m + 1) counts.old states.new.items counts.new) }
{
    for i in 0..chosen.len() {
        let t = chosen_at(items, chosen, i);
        take_cross(
            items,
            &items[t],
            &plans[t],
            &mut states[i],
            rows,
            env,
            counts,
        )?;
    }
    Ok(())
}

/// Takes the chosen items of an instance over one of its samples: the points, and then the crosses of these.
pub(crate) fn sample_instance(
    items: &[ItemInfo],
    plans: &[ItemPlan],
    chosen: &[u32],
    kept: &mut InstState,
    env: &[Option<Int>],
    counts: &mut [u64],
) -> Result<(), Memory>
    requires plans { ArePlans items.now plans.now }
    requires chosen { AreChosen items.now chosen.now }
    requires fits { InstFits items.now plans.now chosen.now kept.old }
    requires numbered { AreNumbered items.now (length counts.old) }
    ensures fits { OnOk result (InstFits items.now plans.now chosen.now kept.new) }
    ensures taken { OnOk result ((all : List Env) (m : ℕ) → IsSample all m env.now → AllStand items.now plans.now chosen.now all (λ shape. m) kept.old.states.items counts.old
        → AllTaken items.now plans.now chosen.now all (λ shape. m + 1) counts.old kept.new.states.items counts.new) }
{
    let alone = take_points(
        items,
        plans,
        chosen,
        &mut kept.states,
        &mut kept.rows,
        env,
        counts,
    )?;
    if alone {
        return Ok(());
    }
    take_crosses(
        items,
        plans,
        chosen,
        &mut kept.states,
        kept.rows.as_slice(),
        env,
        counts,
    )?;
    Ok(())
}
