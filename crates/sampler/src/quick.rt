//! Instances whose points are counted by their values and the indexes of their bins alone.
ghost use Rattle.std.specs.Prelude.{◌≡◌, ◌⊎◌, ◌+◌, ◌<◌, ℕ, [], List, true, length, slice_get, IfOk, IfSome, OnOk};
ghost use Rattle.design_data.specs.declared.infos.ItemInfo.{ItemInfo as Item};
ghost use Rattle.design_data.specs.declared.infos.ItemShape.TheVariants.{Point as PointOf};
ghost use Rattle.record_codec.specs.Samples.{Env};
ghost use Rattle.sampler_plans.specs.declared.plan.ItemPlan.{ItemPlan as AnyPlan};
ghost use Rattle.sampler.specs.declared.instance.ItemState.{ItemState};
ghost use Rattle.sampler.specs.Standing.{IsSample, AllStand, AllTaken, AreChosen};
ghost use Rattle.sampler.specs.Walking.{IsInstWork, IsWork};
ghost use Rattle.sampler.specs.Quick.{IsQuickItem, AreQuick, IsQuickInst, AreQuickUpTo, AreReady, AreKept};

use crate::instance::chosen_at;
use crate::lists::{QuickItem, QuickLists};
use crate::walking::arguments;
use const_eval::Bound;
use cov_base::{Int, Memory};
use cov_tree::{List, Shared};
use design_data::{InstInfo, ItemInfo, ItemShape};
use record_codec::Record;
use sampler_plans::{InstPlan, ItemPlan};
use std::alloc::Global;

/// The most expressions that are kept: places among them take half a word.
const MOST_EXPRS: usize = 0xffff_ffff;

/// The place of the expression among those that are kept: the known one, where the same stands there, or that behind all.
fn expr_place(
    alloc: Global,
    expr: &Bound,
    known: u32,
    exprs: &mut Vec<Bound>,
) -> Result<u32, Memory>
    ensures place { IfOk result (λ place. slice_get exprs.new.items place ≡ Some expr.now) }
    ensures kept { OnOk result (AreKept exprs.old.items exprs.new.items) }
{
    if let Some(other) = exprs.get(known as usize) {
        if other.is_same(expr) {
            return Ok(known);
        }
    }
    let place = exprs.len();
    if place > MOST_EXPRS {
        return Err(Memory);
    }
    exprs.push(expr.copy(alloc)?)?;
    Ok(place as u32)
}

/// The quick item of a point with a quick plan and no guard.
fn quick_point(
    alloc: Global,
    item: &ItemInfo,
    expr: &Bound,
    plan: &ItemPlan,
    known: u32,
    exprs: &mut Vec<Bound>,
) -> Result<Option<QuickItem>, Memory>
    requires shape { item.now.shape ≡ PointOf expr.now }
    ensures quick { IfOk result (λ made. IfSome made (IsQuickItem exprs.new.items item.now plan.now)) }
    ensures kept { OnOk result (AreKept exprs.old.items exprs.new.items) }
{
    let ItemPlan::Point(plan) = plan else {
        return Ok(None);
    };
    if item.guard.is_some() {
        return Ok(None);
    }
    if !plan.get().is_quick(expr) {
        return Ok(None);
    }
    let place = expr_place(alloc, expr, known, exprs)?;
    let plan = plan.share()?;
    Ok(Some(QuickItem {
        expr: place,
        first_bin: item.first_bin,
        plan,
    }))
}

/// The quick item of an item, if it is a point that has one.
fn quick_item(
    alloc: Global,
    item: &ItemInfo,
    plan: &ItemPlan,
    known: u32,
    exprs: &mut Vec<Bound>,
) -> Result<Option<QuickItem>, Memory>
    ensures quick { IfOk result (λ made. IfSome made (IsQuickItem exprs.new.items item.now plan.now)) }
    ensures kept { OnOk result (AreKept exprs.old.items exprs.new.items) }
{
    match &item.shape {
        ItemShape::Point(expr) => quick_point(alloc, item, expr, plan, known, exprs),
        ItemShape::Cross(_) => Ok(None),
    }
}

/// The place of the expression of the item at this place of another instance, 0 where there is none.
fn known_at(known: &[QuickItem], place: usize) -> u32 {
    match known.get(place) {
        Some(item) => item.expr,
        None => 0,
    }
}

/// The quick items of the chosen items of an instance, none where one of them isn't quick. Expressions that are those of
/// the known quick items in order stand once.
fn quick_items(
    alloc: Global,
    items: &[ItemInfo],
    plans: &[ItemPlan],
    chosen: &[u32],
    known: &[QuickItem],
    exprs: &mut Vec<Bound>,
) -> Result<Vec<QuickItem>, Memory>
    requires plans { length plans.now ≡ length items.now }
    requires chosen { AreChosen items.now chosen.now }
    ensures quick { IfOk result (λ list. (list.items ≡ []) ⊎ AreQuick exprs.new.items items.now plans.now chosen.now list.items) }
    ensures kept { OnOk result (AreKept exprs.old.items exprs.new.items) }
{
    let mut list = Vec::with_capacity(alloc, chosen.len())?;
    for i in 0..chosen.len() {
        let t = chosen_at(items, chosen, i);
        let place = known_at(known, i);
        let Some(quick) = quick_item(alloc, &items[t], &plans[t], place, exprs)? else {
            return Ok(Vec::new(alloc));
        };
        list.push(quick)?;
    }
    Ok(list)
}

/// The quick items of the instance at this index, none where it has arguments in the record.
fn quick_items_at(
    alloc: Global,
    rec: &Record,
    index: usize,
    items: &[ItemInfo],
    plans: &[ItemPlan],
    chosen: &[u32],
    known: &[QuickItem],
    exprs: &mut Vec<Bound>,
) -> Result<Vec<QuickItem>, Memory>
    requires plans { length plans.now ≡ length items.now }
    requires chosen { AreChosen items.now chosen.now }
    ensures quick { IfOk result (λ list. (list.items ≡ []) ⊎ IsQuickInst rec.now index exprs.new.items items.now plans.now chosen.now list.items) }
    ensures kept { OnOk result (AreKept exprs.old.items exprs.new.items) }
{
    if arguments(rec.instances.as_slice(), index).is_empty() {
        return quick_items(alloc, items, plans, chosen, known, exprs);
    }
    Ok(Vec::new(alloc))
}

/// The quick items of the instances of a walk, with their expressions.
#[derive(Drop)]
pub struct QuickTable {
    pub(crate) lists: QuickLists,
    pub(crate) exprs: Vec<Bound>,
}

impl QuickTable {
    /// The quick items of the instances along the record.
    pub(crate) fn of(
        alloc: Global,
        rec: &Record,
        instances: &[InstInfo],
        plans: &[InstPlan],
        share: &[Shared<List<u32>>],
        counts: &[u64],
    ) -> Result<QuickTable, Memory>
        requires { IsWork instances.now plans.now share.now (length counts.now) }
        ensures { IfOk result (λ table. AreQuickUpTo (length instances.now) rec.now instances.now plans.now share.now table.exprs.items table.lists) }
    {
        let _ = counts;
        let mut lists = QuickLists::new(alloc);
        let mut exprs = Vec::new(alloc);
        for j in 0..instances.len() {
            let items = instances[j].items.as_slice();
            let own = plans[j].items.get().as_slice();
            let chosen = share[j].get().as_slice();
            let known = lists.last();
            let list = quick_items_at(alloc, rec, j, items, own, chosen, known, &mut exprs)?;
            lists.push(list)?;
        }
        Ok(QuickTable { lists, exprs })
    }
}

/// Counts the quick items of an instance, whose expressions are among these, at a sample whose values are `env`.
#[inline(always)]
pub(crate) fn count_items(
    exprs: &[Bound],
    list: &[QuickItem],
    env: &[Option<Int>],
    counts: &mut [u64],
)
    requires { AreReady exprs.now (length counts.old) list.now }
    ensures { (items : List Item) (plans : List AnyPlan) (chosen : List ℕ) (states : List ItemState) (all : List Env) (m : ℕ)
        → IsInstWork items plans chosen (length counts.old) → AreQuick exprs.now items plans chosen list.now
        → length states ≡ length chosen → IsSample all m env.now
        → AllStand items plans chosen all (λ shape. m) states counts.old
        → AllTaken items plans chosen all (λ shape. m + 1) counts.old states counts.new }
{
    for quick in list {
        let plan = quick.plan.get();
        plan.count(&exprs[quick.expr as usize], quick.first_bin, env, counts);
    }
}
