//! What is worked out of a design.
ghost use Rattle.std.specs.Prelude.{◌≡◌, IfOk, length};
ghost use Rattle.design_data.specs.declared.infos.ItemShape.TheVariants.{Point as PointOf, Cross as CrossOf};
ghost use Rattle.design_data.specs.Limits.{IsItem};
ghost use Rattle.cov_counting.specs.Steps.{AreItems, AreInstances};
ghost use Rattle.sampler_plans.specs.ItemPlans.{IsPointPlan, IsCrossPlan, IsPlanOf, ArePlans};
ghost use Rattle.sampler_plans.specs.Plans.{IsInstPlan, AreInstPlans, IsDesignPlan};

use crate::known::{all_serve, known_plan};
use crate::plan::{InstPlan, ItemPlan, Plan};
use const_eval::Bound;
use cov_base::Memory;
use cov_tree::{List, Shared};
use cross_sampler::CrossPlan;
use design_data::{Design, InstInfo, ItemInfo, ItemShape};
use point_sampler::PointPlan;
use std::alloc::Global;

/// What the tables of all crosses of a design may cost, in entries and in questions to declared bins.
const TABLE_ROOM: u64 = 16_777_216;

fn point_plan(
    alloc: Global,
    items: &[ItemInfo],
    item: &ItemInfo,
    expr: &Bound,
) -> Result<ItemPlan, Memory>
    requires item { IsItem items.now item.now }
    requires shape { item.now.shape ≡ PointOf expr.now }
    ensures { IfOk result (λ plan. IsPointPlan item.now plan) }
{
    let _ = items;
    let _ = expr;
    let plan = PointPlan::new(alloc, item)?;
    Ok(ItemPlan::Point(Shared::of(alloc, plan)?))
}

fn cross_plan(
    alloc: Global,
    items: &[ItemInfo],
    item: &ItemInfo,
    axes: &[u32],
    room: &mut u64,
) -> Result<ItemPlan, Memory>
    requires items { AreItems items.now }
    requires item { IsItem items.now item.now }
    requires shape { item.now.shape ≡ CrossOf axes.now }
    ensures { IfOk result (λ plan. IsCrossPlan items.now item.now axes.now plan) }
{
    let plan = CrossPlan::new(alloc, items, item, axes, room)?;
    Ok(ItemPlan::Cross(Shared::of(alloc, plan)?))
}

/// What is worked out of an item that is like no known one.
fn new_plan(
    alloc: Global,
    items: &[ItemInfo],
    item: &ItemInfo,
    room: &mut u64,
) -> Result<ItemPlan, Memory>
    requires items { AreItems items.now }
    requires item { IsItem items.now item.now }
    ensures { IfOk result (λ plan. IsPlanOf items.now item.now item.now.shape plan) }
{
    match &item.shape {
        ItemShape::Point(expr) => point_plan(alloc, items, item, expr),
        ItemShape::Cross(axes) => cross_plan(alloc, items, item, axes.as_slice(), room),
    }
}

/// What is worked out of an item: that of the known item at its index, where this serves it.
fn item_plan(
    alloc: Global,
    known: &[ItemInfo],
    made: &[ItemPlan],
    index: usize,
    items: &[ItemInfo],
    item: &ItemInfo,
    room: &mut u64,
) -> Result<ItemPlan, Memory>
    requires made { ArePlans known.now made.now }
    requires items { AreItems items.now }
    requires item { IsItem items.now item.now }
    ensures { IfOk result (λ plan. IsPlanOf items.now item.now item.now.shape plan) }
{
    if let Some(plan) = known_plan(alloc, known, made, index, items, item)? {
        return Ok(plan);
    }
    new_plan(alloc, items, item, room)
}

/// What is worked out of the items of an instance, where those of another are known.
fn item_plans(
    alloc: Global,
    known: &[ItemInfo],
    made: &[ItemPlan],
    items: &[ItemInfo],
    room: &mut u64,
) -> Result<List<ItemPlan>, Memory>
    requires made { ArePlans known.now made.now }
    requires items { AreItems items.now }
    ensures same { IfOk result (λ plans. length plans ≡ length items.now) }
    ensures plans { IfOk result (λ plans. ArePlans items.now plans) }
{
    let mut plans = List::new(alloc);
    for (index, item) in items.iter().enumerate() {
        plans.push(item_plan(alloc, known, made, index, items, item, room)?)?;
    }
    Ok(plans)
}

/// What is worked out of an instance that is like no known one as a whole.
fn new_inst_plan(
    alloc: Global,
    known: &[ItemInfo],
    made: &[ItemPlan],
    inst: &InstInfo,
    room: &mut u64,
) -> Result<InstPlan, Memory>
    requires made { ArePlans known.now made.now }
    requires items { AreItems inst.now.items }
    ensures { IfOk result (λ plan. IsInstPlan inst.now plan) }
{
    let items = item_plans(alloc, known, made, inst.items.as_slice(), room)?;
    Ok(InstPlan {
        items: Shared::of(alloc, items)?,
    })
}

/// What is worked out of an instance: that of a known one, where its items are alike.
fn inst_plan(
    alloc: Global,
    known: &[ItemInfo],
    made: &InstPlan,
    inst: &InstInfo,
    room: &mut u64,
) -> Result<InstPlan, Memory>
    requires made { ArePlans known.now made.now.items }
    requires items { AreItems inst.now.items }
    ensures { IfOk result (λ plan. IsInstPlan inst.now plan) }
{
    let plans = made.items.get().as_slice();
    if all_serve(alloc, known, plans, inst.items.as_slice())? {
        return Ok(InstPlan {
            items: made.items.share()?,
        });
    }
    new_inst_plan(alloc, known, plans, inst, room)
}

/// What is worked out of an instance, where the plans of the first instances are made and this index may be one of them.
fn next_plan(
    alloc: Global,
    instances: &[InstInfo],
    made: &[InstPlan],
    known: usize,
    inst: &InstInfo,
    room: &mut u64,
) -> Result<InstPlan, Memory>
    requires made { AreInstPlans instances.now made.now }
    requires items { AreItems inst.now.items }
    ensures { IfOk result (λ plan. IsInstPlan inst.now plan) }
{
    if known >= instances.len() {
        return new_inst_plan(alloc, &[], &[], inst, room);
    }
    if known >= made.len() {
        return new_inst_plan(alloc, &[], &[], inst, room);
    }
    let items = instances[known].items.as_slice();
    inst_plan(alloc, items, &made[known], inst, room)
}

impl Plan {
    /// What is worked out of a design. A caller that counts many records under one design keeps it beside the design.
    pub fn of(alloc: Global, design: &Design) -> Result<Plan, Memory>
        ensures { IfOk result (λ plan. IsDesignPlan design.now.instances plan) }
    {
        let instances = instance_plans(alloc, design.groups().len(), design.instances())?;
        Ok(Plan { instances })
    }
}

/// The index of the latest instance of this group; one of no instance where there is none.
fn latest_of(latest: &[usize], group: u32) -> usize {
    match latest.get(group as usize) {
        Some(index) => *index,
        None => usize::MAX,
    }
}

fn set_latest(latest: &mut Vec<usize>, group: u32, index: usize) {
    let group = group as usize;
    if group < latest.len() {
        latest[group] = index;
    }
}

/// What is worked out of instances of so many groups. An item that is the same as that of the instance of its group before
/// has its tables.
fn instance_plans(
    alloc: Global,
    groups: usize,
    instances: &[InstInfo],
) -> Result<List<InstPlan>, Memory>
    requires { AreInstances instances.now }
    ensures same { IfOk result (λ plans. length plans ≡ length instances.now) }
    ensures plans { IfOk result (λ plans. AreInstPlans instances.now plans) }
{
    let mut room = TABLE_ROOM;
    let mut latest = Vec::from_elem(alloc, usize::MAX, groups)?;
    let mut plans = List::new(alloc);
    for (index, inst) in instances.iter().enumerate() {
        let known = latest_of(latest.as_slice(), inst.group);
        let plan = next_plan(alloc, instances, plans.as_slice(), known, inst, &mut room)?;
        plans.push(plan)?;
        set_latest(&mut latest, inst.group, index);
    }
    Ok(plans)
}
