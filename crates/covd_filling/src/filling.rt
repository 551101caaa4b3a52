//! A store that is filled with records, one after the other.
ghost use Rattle.std.specs.Prelude.{◌≡◌, ◌+◌, ◌^◌, ◌<◌, ◌≤◌, ◌∷◌, [], length, IfOk};
ghost use Rattle.std.specs.Arc.{arc_value};
ghost use Rattle.sampler.specs.Plans.{IsDesignPlan};
ghost use Rattle.merge_store.specs.Stores.{opening_of, entries_of};
ghost use Rattle.covd_filling.specs.Steps.{IsPlain, Takes, IsFilled};
ghost use Rattle.covd_commands.specs.Options.{options_in};
ghost use Rattle.covd_commands.specs.Origins.{origin_of, origins_of};
ghost use Rattle.covd_filling.specs.Batches.{AreFound};

use crate::admitting::{Taking, admit_counted, admit_record, may_pass};
use crate::batches::{Counted, next_counted};
use crate::leaving::Left;
use cov_base::Shelf;
use covd_commands::ahead::MOST_RECORDS;
use covd_commands::finding::{read, record_of};
use covd_commands::options::Options;
use covd_commands::origins::{Origin, Origins};
use covd_commands::stop::Stop;
use design_data::Design;
use merge_store::Store;
use sampler::Plan;
use std::alloc::Global;
use std::collections::VecDeque;
use std::sync::Arc;
use std::thread;
use std::thread::Threads;

/// What records are taken in by.
#[derive(Clone, Copy)]
pub(crate) struct Terms<'a> {
    /// The design of the store.
    pub(crate) design: &'a Arc<Design>,
    /// What is worked out of the design, once for all records.
    pub(crate) plan: &'a Plan,
    /// Whether tests that ended OK alone are taken in.
    pub(crate) passed: bool,
}

/// Takes the k-th record in by itself. It is counted in threads.
fn take_alone<R: Threads + Sync, F: Shelf>(
    rt: &R,
    alloc: Global,
    terms: Terms,
    store: &mut Store,
    k: u64,
    origin: Origin,
    shelf: &mut F,
) -> Result<Taking, Stop>
    requires plain { IsPlain (arc_value terms.design.now) store.old }
    requires planned { IsDesignPlan (arc_value terms.design.now).instances terms.plan.now }
    ensures same { F.files shelf.new ≡ F.files shelf.old }
    ensures later { F.faults shelf.old ≤ F.faults shelf.new }
    ensures opening { opening_of store.new ≡ opening_of store.old }
    ensures takes { Takes terms.entry.passed (F.files shelf.old) (F.faults shelf.old) (F.faults shelf.new)
        (arc_value terms.entry.design.now) k (entries_of store.old) (origin_of origin.entry) (entries_of store.new) result }
{
    let source = read(alloc, origin, shelf)?;
    let rec = record_of(alloc, k, terms.design, &source)?;
    if !may_pass(terms.passed, rec.status) {
        return Ok(Taking::Unpassed(rec.status));
    }
    admit_record(rt, alloc, terms.design, terms.plan, store, k, rec)?;
    Ok(Taking::Taken)
}

/// Takes the k-th record in, which is counted in a batch: the first of those that are found, or the first of a new one.
fn take_counted<R: Threads + Sync, F: Shelf>(
    rt: &R,
    alloc: Global,
    terms: Terms,
    store: &mut Store,
    k: u64,
    origin: Origin,
    later: Origins,
    found: &mut VecDeque<Result<Counted, Stop>>,
    shelf: &mut F,
) -> Result<Taking, Stop>
    requires plain { IsPlain (arc_value terms.design.now) store.old }
    requires planned { IsDesignPlan (arc_value terms.design.now).instances terms.plan.now }
    requires room { k + length (origins_of later) < 2 ^ 64 }
    requires found { AreFound (F.files shelf.old) (arc_value terms.design.now) k
        (origin_of origin ∷ origins_of later) found.old.items }
    ensures same { F.files shelf.new ≡ F.files shelf.old }
    ensures later { F.faults shelf.old ≤ F.faults shelf.new }
    ensures opening { opening_of store.new ≡ opening_of store.old }
    ensures found { AreFound (F.files shelf.old) (arc_value terms.entry.design.now) (k + 1) (origins_of later.entry)
        found.new.items }
    ensures takes { Takes terms.entry.passed (F.files shelf.old) (F.faults shelf.old) (F.faults shelf.new)
        (arc_value terms.entry.design.now) k (entries_of store.old) (origin_of origin.entry) (entries_of store.new) result }
{
    let counted = next_counted(
        rt,
        alloc,
        terms.plan,
        terms.design,
        k,
        origin,
        later,
        found,
        shelf,
    )?;
    if !may_pass(terms.passed, counted.rec.status()) {
        return Ok(Taking::Unpassed(counted.rec.status()));
    }
    admit_counted(alloc, terms.design, store, k, counted)?;
    Ok(Taking::Taken)
}

/// Whether a record and so many later ones are fewer than the processors, which then count each of them together.
fn are_few<R: Threads>(rt: &R, later: usize) -> bool {
    match thread::available_parallelism(rt) {
        Ok(count) => count.get() == 1 || later.saturating_add(1) < count.get().min(MOST_RECORDS),
        Err(_) => true,
    }
}

/// Takes the k-th record in, behind which so many are left: alone where they are few, else with a batch.
fn take_next<R: Threads + Sync, F: Shelf>(
    rt: &R,
    alloc: Global,
    terms: Terms,
    store: &mut Store,
    k: u64,
    origin: Origin,
    later: Origins,
    count: usize,
    found: &mut VecDeque<Result<Counted, Stop>>,
    shelf: &mut F,
) -> Result<Taking, Stop>
    requires plain { IsPlain (arc_value terms.design.now) store.old }
    requires planned { IsDesignPlan (arc_value terms.design.now).instances terms.plan.now }
    requires room { k + length (origins_of later) < 2 ^ 64 }
    requires found { AreFound (F.files shelf.old) (arc_value terms.design.now) k
        (origin_of origin ∷ origins_of later) found.old.items }
    ensures same { F.files shelf.new ≡ F.files shelf.old }
    ensures later { F.faults shelf.old ≤ F.faults shelf.new }
    ensures opening { opening_of store.new ≡ opening_of store.old }
    ensures found { AreFound (F.files shelf.old) (arc_value terms.entry.design.now) (k + 1) (origins_of later.entry)
        found.new.items }
    ensures takes { Takes terms.entry.passed (F.files shelf.old) (F.faults shelf.old) (F.faults shelf.new)
        (arc_value terms.entry.design.now) k (entries_of store.old) (origin_of origin.entry) (entries_of store.new) result }
{
    if found.is_empty() && are_few(rt, count) {
        return take_alone(rt, alloc, terms, store, k, origin, shelf);
    }
    take_counted(rt, alloc, terms, store, k, origin, later, found, shelf)
}

/// Takes the records that come from there in, in order, up to the first that is refused, or but for those that are left out.
pub(crate) fn fill<R: Threads + Sync, F: Shelf>(
    rt: &R,
    alloc: Global,
    options: Options,
    terms: Terms,
    store: &mut Store,
    origins: Origins,
    shelf: &mut F,
) -> Result<Left, Stop>
    requires plain { IsPlain (arc_value terms.design.now) store.old }
    requires planned { IsDesignPlan (arc_value terms.design.now).instances terms.plan.now }
    requires passed { terms.passed ≡ options.passed }
    requires fresh { entries_of store.old ≡ [] }
    ensures same { F.files shelf.new ≡ F.files shelf.old }
    ensures later { F.faults shelf.old ≤ F.faults shelf.new }
    ensures plain { IfOk result (λ left. IsPlain (arc_value terms.entry.design.now) store.new) }
    ensures filled { IsFilled (options_in options.entry) (F.files shelf.old) (F.faults shelf.old) (F.faults shelf.new)
        (arc_value terms.entry.design.now) (origins_of origins.entry) store.new result }
{
    let mut found = VecDeque::new(alloc);
    let mut left = Left::none(alloc);
    let mut k: u64 = 0;
    let mut count = origins.len();
    let mut rest = origins;
    while let Some((origin, later)) = rest.split_first() {
        k += 1;
        count -= 1;
        let taken = take_next(
            rt, alloc, terms, store, k, origin, later, count, &mut found, shelf,
        );
        left.note(alloc, options.keep_going, k, origin, taken)?;
        rest = later;
    }
    Ok(left)
}
