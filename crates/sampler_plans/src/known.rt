//! Tables that serve an item of another instance too.
ghost use Rattle.std.specs.Prelude.{◌≡◌, ◌<◌, ℕ, IfOk, IfSome, IsTrue, length, slice_get, Some};
ghost use Rattle.design_data.specs.declared.infos.ItemShape.TheVariants.{Point as PointOf, Cross as CrossOf};
ghost use Rattle.design_data.specs.Limits.{IsItem};
ghost use Rattle.cov_counting.specs.Steps.{AreItems};
ghost use Rattle.sampler_plans.specs.ItemPlans.{IsPointPlan, IsCrossPlan, IsPlanOf, ArePlans};

use crate::plan::ItemPlan;
use crate::sameness::{are_alike, same_numbers};
use const_eval::Bound;
use cov_base::Memory;
use design_data::{ItemInfo, ItemShape, sizes};
use std::alloc::Global;

/// Whether the plan of a known item is that of this point.
fn serves_point(
    known_items: &[ItemInfo],
    known: &ItemInfo,
    plan: &ItemPlan,
    items: &[ItemInfo],
    item: &ItemInfo,
    expr: &Bound,
) -> bool
    requires known { IsPlanOf known_items.now known.now known.now.shape plan.now }
    requires item { IsItem items.now item.now }
    requires shape { item.now.shape ≡ PointOf expr.now }
    ensures { IsTrue result → IsPointPlan item.now plan.now }
{
    let _ = known_items;
    let _ = items;
    let _ = expr;
    match plan {
        ItemPlan::Point(_) => are_alike(known, item),
        ItemPlan::Cross(_) => false,
    }
}

/// Whether the plan of a known item is that of this cross: its points have as many coverage bins.
fn serves_cross(
    alloc: Global,
    known_items: &[ItemInfo],
    known: &ItemInfo,
    plan: &ItemPlan,
    items: &[ItemInfo],
    item: &ItemInfo,
    axes: &[u32],
) -> Result<bool, Memory>
    requires known { IsPlanOf known_items.now known.now known.now.shape plan.now }
    requires items { AreItems items.now }
    requires item { IsItem items.now item.now }
    requires shape { item.now.shape ≡ CrossOf axes.now }
    ensures { IfOk result (λ serves. IsTrue serves → IsCrossPlan items.now item.now axes.now plan.now) }
{
    let _ = known_items;
    let own = sizes(alloc, items, axes)?;
    match plan {
        ItemPlan::Point(_) => Ok(false),
        ItemPlan::Cross(plan) => Ok(
            same_numbers(plan.get().sizes.as_slice(), own.as_slice()) && are_alike(known, item),
        ),
    }
}

/// Whether the plan of a known item is this item's too.
fn serves(
    alloc: Global,
    known_items: &[ItemInfo],
    known: &ItemInfo,
    plan: &ItemPlan,
    items: &[ItemInfo],
    item: &ItemInfo,
) -> Result<bool, Memory>
    requires known { IsPlanOf known_items.now known.now known.now.shape plan.now }
    requires items { AreItems items.now }
    requires item { IsItem items.now item.now }
    ensures { IfOk result (λ serves. IsTrue serves → IsPlanOf items.now item.now item.now.shape plan.now) }
{
    match &item.shape {
        ItemShape::Point(expr) => Ok(serves_point(known_items, known, plan, items, item, expr)),
        ItemShape::Cross(axes) => {
            serves_cross(
                alloc,
                known_items,
                known,
                plan,
                items,
                item,
                axes.as_slice(),
            )
        }
    }
}

/// The plan of a known item once more, if it is this item's too.
fn plan_again(
    alloc: Global,
    known_items: &[ItemInfo],
    known: &ItemInfo,
    plan: &ItemPlan,
    items: &[ItemInfo],
    item: &ItemInfo,
) -> Result<Option<ItemPlan>, Memory>
    requires known { IsPlanOf known_items.now known.now known.now.shape plan.now }
    requires items { AreItems items.now }
    requires item { IsItem items.now item.now }
    ensures { IfOk result (λ found. IfSome found (IsPlanOf items.now item.now item.now.shape)) }
{
    if !serves(alloc, known_items, known, plan, items, item)? {
        return Ok(None);
    }
    Ok(Some(plan.share()?))
}

/// The plan of the known item at this index once more, if there is one and it is this item's too.
pub(crate) fn known_plan(
    alloc: Global,
    known: &[ItemInfo],
    made: &[ItemPlan],
    index: usize,
    items: &[ItemInfo],
    item: &ItemInfo,
) -> Result<Option<ItemPlan>, Memory>
    requires made { ArePlans known.now made.now }
    requires items { AreItems items.now }
    requires item { IsItem items.now item.now }
    ensures { IfOk result (λ found. IfSome found (IsPlanOf items.now item.now item.now.shape)) }
{
    if index >= known.len() {
        return Ok(None);
    }
    if index >= made.len() {
        return Ok(None);
    }
    plan_again(alloc, known, &known[index], &made[index], items, item)
}

/// Whether the plan of the known item at this index is that of the item there.
fn serves_at(
    alloc: Global,
    known: &[ItemInfo],
    made: &[ItemPlan],
    items: &[ItemInfo],
    index: usize,
) -> Result<bool, Memory>
    requires made { ArePlans known.now made.now }
    requires items { AreItems items.now }
    requires inside { index < length items.now }
    requires known { index < length known.now }
    requires planned { index < length made.now }
    ensures { IfOk result (λ serves. IsTrue serves → (item : _) (p : _) → slice_get items.now index ≡ Some item → slice_get made.now index ≡ Some p → IsPlanOf items.now item item.shape p) }
{
    serves(
        alloc,
        known,
        &known[index],
        &made[index],
        items,
        &items[index],
    )
}

/// Whether the plans of a known instance's items are those of these items, one by one.
#[tactic(auto, using(crate::proofs::Alike::plans_more))]
pub(crate) fn all_serve(
    alloc: Global,
    known: &[ItemInfo],
    made: &[ItemPlan],
    items: &[ItemInfo],
) -> Result<bool, Memory>
    requires made { ArePlans known.now made.now }
    requires items { AreItems items.now }
    ensures same { IfOk result (λ serve. IsTrue serve → length made.now ≡ length items.now) }
    ensures plans { IfOk result (λ serve. IsTrue serve → ArePlans items.now made.now) }
{
    if known.len() != items.len() {
        return Ok(false);
    }
    if made.len() != items.len() {
        return Ok(false);
    }
    for index in 0..items.len() {
        if !serves_at(alloc, known, made, items, index)? {
            return Ok(false);
        }
    }
    Ok(true)
}
