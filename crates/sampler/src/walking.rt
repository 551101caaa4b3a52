//! The walk over a record's events.
ghost use Rattle.std.specs.Prelude.{◌≡◌, ◌+◌, ◌-◌, ◌^◌, ◌<◌, ◌≤◌, ◌∷◌, [], ℕ, List, Option, true, false, length, slice_get, OnOk};
ghost use Rattle.record_codec.specs.declared.record.Event.{Event as AnyEvent};
ghost use Rattle.record_codec.specs.declared.record.Event.TheVariants.{Sample};
ghost use Rattle.record_codec.specs.Samples.{args_of};
ghost use Rattle.sampler_plans.specs.ItemPlans.{ArePlans};
ghost use Rattle.sampler.specs.Values.{places, Holds};
ghost use Rattle.sampler.specs.Standing.{AreNumbered, AreChosen, InstAt, InstTaken};
ghost use Rattle.sampler.specs.Quick.{AreQuickUpTo};
ghost use Rattle.sampler.specs.Walking.{IsInstWork, IsWork, InstFits, AllInstFit, WalkAt, ShareCounted};

use crate::instance::{InstState, sample_instance};
use crate::quick::{QuickTable, count_items};
use crate::values::{clear_args, set_signal, write_args};
use cov_base::{Int, Memory};
use cov_tree::{List, Shared};
use design_data::{InstInfo, ItemInfo};
use record_codec::{ArgRow, Event, InstRow, Record};
use sampler_plans::{InstPlan, ItemPlan};

/// The arguments of the instance at this index.
pub(crate) fn arguments(instances: &[InstRow], index: usize) -> &[ArgRow]
    ensures { result.now ≡ args_of (slice_get instances.now index) }
{
    match instances.get(index) {
        Some(row) => row.args.as_slice(),
        None => &[],
    }
}

/// Takes the chosen items of an instance over its sample with these arguments, which stand behind the signals' values for
/// this sample alone.
#[inline(never)]
fn take_with_args(
    rec: &Record,
    instance: usize,
    items: &[ItemInfo],
    plans: &[ItemPlan],
    chosen: &[u32],
    values: &mut [Option<Int>],
    kept: &mut InstState,
    arg_rows: &[ArgRow],
    args: &[Option<u64>],
    counts: &mut [u64],
) -> Result<(), Memory>
    requires places { length values.old ≡ places }
    requires rows { arg_rows.now ≡ args_of (slice_get rec.now.instances instance) }
    requires work { IsInstWork items.now plans.now chosen.now (length counts.old) }
    requires fits { InstFits items.now plans.now chosen.now kept.old }
    ensures fits { OnOk result (InstFits items.now plans.now chosen.now kept.new) }
    ensures holds { OnOk result ((before : List AnyEvent) → Holds rec.now.signals before values.old
        → Holds rec.now.signals (Sample instance args.now ∷ before) values.new) }
    ensures at { OnOk result ((before events : List AnyEvent) → length before < 2 ^ 32 - 1 → Holds rec.now.signals before values.old
        → InstAt rec.now instance items.now plans.now chosen.now before (Sample instance args.now ∷ events) kept.old.states.items counts.old
        → InstTaken rec.now instance items.now plans.now chosen.now (Sample instance args.now ∷ before) events counts.old kept.new.states.items counts.new) }
{
    let _ = rec;
    let _ = instance;
    write_args(values, arg_rows, args);
    sample_instance(items, plans, chosen, kept, values, counts)?;
    clear_args(values);
    Ok(())
}

/// Takes the chosen items of an instance over its sample with these arguments.
fn take_chosen(
    rec: &Record,
    instance: usize,
    items: &[ItemInfo],
    plans: &[ItemPlan],
    chosen: &[u32],
    values: &mut [Option<Int>],
    kept: &mut InstState,
    args: &[Option<u64>],
    counts: &mut [u64],
) -> Result<(), Memory>
    requires places { length values.old ≡ places }
    requires work { IsInstWork items.now plans.now chosen.now (length counts.old) }
    requires fits { InstFits items.now plans.now chosen.now kept.old }
    ensures fits { OnOk result (InstFits items.now plans.now chosen.now kept.new) }
    ensures holds { OnOk result ((before : List AnyEvent) → Holds rec.now.signals before values.old
        → Holds rec.now.signals (Sample instance args.now ∷ before) values.new) }
    ensures at { OnOk result ((before events : List AnyEvent) → length before < 2 ^ 32 - 1 → Holds rec.now.signals before values.old
        → InstAt rec.now instance items.now plans.now chosen.now before (Sample instance args.now ∷ events) kept.old.states.items counts.old
        → InstTaken rec.now instance items.now plans.now chosen.now (Sample instance args.now ∷ before) events counts.old kept.new.states.items counts.new) }
{
    let arg_rows = arguments(rec.instances.as_slice(), instance);
    if arg_rows.is_empty() {
        sample_instance(items, plans, chosen, kept, values, counts)?;
        return Ok(());
    }
    take_with_args(
        rec, instance, items, plans, chosen, values, kept, arg_rows, args, counts,
    )?;
    Ok(())
}

/// The same, in no time where no item is chosen.
fn take_sample(
    rec: &Record,
    instance: usize,
    items: &[ItemInfo],
    plans: &[ItemPlan],
    chosen: &[u32],
    values: &mut [Option<Int>],
    kept: &mut InstState,
    args: &[Option<u64>],
    counts: &mut [u64],
) -> Result<(), Memory>
    requires places { length values.old ≡ places }
    requires work { IsInstWork items.now plans.now chosen.now (length counts.old) }
    requires fits { InstFits items.now plans.now chosen.now kept.old }
    ensures fits { OnOk result (InstFits items.now plans.now chosen.now kept.new) }
    ensures holds { OnOk result ((before : List AnyEvent) → Holds rec.now.signals before values.old
        → Holds rec.now.signals (Sample instance args.now ∷ before) values.new) }
    ensures at { OnOk result ((before events : List AnyEvent) → length before < 2 ^ 32 - 1 → Holds rec.now.signals before values.old
        → InstAt rec.now instance items.now plans.now chosen.now before (Sample instance args.now ∷ events) kept.old.states.items counts.old
        → InstTaken rec.now instance items.now plans.now chosen.now (Sample instance args.now ∷ before) events counts.old kept.new.states.items counts.new) }
{
    if chosen.is_empty() {
        return Ok(());
    }
    take_chosen(
        rec, instance, items, plans, chosen, values, kept, args, counts,
    )?;
    Ok(())
}

/// Takes the instances over one event, whether they have quick items or not.
#[inline(never)]
fn take_any(
    rec: &Record,
    instances: &[InstInfo],
    plans: &[InstPlan],
    share: &[Shared<List<u32>>],
    values: &mut [Option<Int>],
    kept: &mut Vec<InstState>,
    event: &Event,
    counts: &mut [u64],
) -> Result<(), Memory>
    requires places { length values.old ≡ places }
    requires work { IsWork instances.now plans.now share.now (length counts.old) }
    requires fits { AllInstFit instances.now plans.now share.now kept.old.items }
    ensures fits { OnOk result (AllInstFit instances.now plans.now share.now kept.new.items) }
    ensures at { OnOk result ((start : List ℕ) (before events : List AnyEvent) → length before < 2 ^ 32 - 1
        → WalkAt rec.now instances.now plans.now share.now before (event.now ∷ events) values.old start kept.old.items counts.old
        → WalkAt rec.now instances.now plans.now share.now (event.now ∷ before) events values.new start kept.new.items counts.new) }
{
    match event {
        Event::Set { signal, value } => {
            set_signal(values, rec.signals.as_slice(), *signal, *value);
            Ok(())
        }
        Event::Sample { instance, args } => {
            let index = *instance as usize;
            if index >= instances.len() {
                return Ok(());
            }
            let items = instances[index].items.as_slice();
            let own = plans[index].items.get().as_slice();
            let chosen = share[index].get().as_slice();
            let args = args.as_slice();
            let state = &mut kept[index];
            take_sample(rec, index, items, own, chosen, values, state, args, counts)?;
            Ok(())
        }
    }
}

/// Takes the instance at this index over its sample by its quick items, and says whether it has some.
#[inline(always)]
fn take_quick(
    rec: &Record,
    instances: &[InstInfo],
    plans: &[InstPlan],
    share: &[Shared<List<u32>>],
    table: &QuickTable,
    values: &[Option<Int>],
    kept: &Vec<InstState>,
    index: usize,
    counts: &mut [u64],
) -> bool
    requires work { IsWork instances.now plans.now share.now (length counts.old) }
    requires table { AreQuickUpTo (length instances.now) rec.now instances.now plans.now share.now table.now.exprs.items table.now.lists }
    requires fits { AllInstFit instances.now plans.now share.now kept.now.items }
    ensures at { result ≡ true → (start : List ℕ) (args : List (Option ℕ)) (before events : List AnyEvent) → length before < 2 ^ 32 - 1
        → WalkAt rec.now instances.now plans.now share.now before (Sample index args ∷ events) values.now start kept.now.items counts.old
        → WalkAt rec.now instances.now plans.now share.now (Sample index args ∷ before) events values.now start kept.now.items counts.new }
    ensures same { result ≡ false → counts.new ≡ counts.old }
{
    let _ = rec;
    let _ = plans;
    let _ = share;
    let _ = kept;
    if index >= instances.len() {
        return false;
    }
    let list = table.lists.list(index);
    if list.is_empty() {
        return false;
    }
    count_items(table.exprs.as_slice(), list, values, counts);
    true
}

/// Takes the instances over one event.
fn take_event(
    rec: &Record,
    instances: &[InstInfo],
    plans: &[InstPlan],
    share: &[Shared<List<u32>>],
    table: &QuickTable,
    values: &mut [Option<Int>],
    kept: &mut Vec<InstState>,
    event: &Event,
    counts: &mut [u64],
) -> Result<(), Memory>
    requires places { length values.old ≡ places }
    requires work { IsWork instances.now plans.now share.now (length counts.old) }
    requires table { AreQuickUpTo (length instances.now) rec.now instances.now plans.now share.now table.now.exprs.items table.now.lists }
    requires fits { AllInstFit instances.now plans.now share.now kept.old.items }
    ensures fits { OnOk result (AllInstFit instances.now plans.now share.now kept.new.items) }
    ensures at { OnOk result ((start : List ℕ) (before events : List AnyEvent) → length before < 2 ^ 32 - 1
        → WalkAt rec.now instances.now plans.now share.now before (event.now ∷ events) values.old start kept.old.items counts.old
        → WalkAt rec.now instances.now plans.now share.now (event.now ∷ before) events values.new start kept.new.items counts.new) }
{
    if let Event::Sample { instance, .. } = event {
        let index = *instance as usize;
        if take_quick(
            rec, instances, plans, share, table, values, kept, index, counts,
        ) {
            return Ok(());
        }
    }
    take_any(rec, instances, plans, share, values, kept, event, counts)?;
    Ok(())
}

/// Takes the items of a share over a record's events, each event once.
pub(crate) fn walk(
    rec: &Record,
    instances: &[InstInfo],
    plans: &[InstPlan],
    share: &[Shared<List<u32>>],
    table: &QuickTable,
    values: &mut [Option<Int>],
    kept: &mut Vec<InstState>,
    counts: &mut [u64],
) -> Result<(), Memory>
    requires places { length values.old ≡ places }
    requires work { IsWork instances.now plans.now share.now (length counts.old) }
    requires table { AreQuickUpTo (length instances.now) rec.now instances.now plans.now share.now table.now.exprs.items table.now.lists }
    requires fits { AllInstFit instances.now plans.now share.now kept.old.items }
    requires few { length rec.now.events < 2 ^ 32 - 1 }
    requires at { WalkAt rec.now instances.now plans.now share.now [] rec.now.events values.old counts.old kept.old.items counts.old }
    ensures { OnOk result (ShareCounted rec.now instances.now share.now counts.old counts.new) }
{
    for event in rec.events.as_slice() {
        take_event(
            rec, instances, plans, share, table, values, kept, event, counts,
        )?;
    }
    Ok(())
}
