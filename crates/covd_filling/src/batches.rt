//! Records that are read ahead of their turn and counted in threads, a batch at a time.
ghost use Rattle.std.specs.Prelude.{◌≡◌, ℕ, ◌+◌, ◌^◌, ◌<◌, ◌≤◌, ◌∷◌, length, slice_index_or, IfOk, IfErr, OnOk, OnErr};
ghost use Rattle.std.specs.Arc.{arc_value};
ghost use Rattle.sampler.specs.Plans.{IsDesignPlan};
ghost use Rattle.covd_commands.specs.Finding.{NoneComes};
ghost use Rattle.covd_commands.specs.Origins.{origin_of, origins_of, IsShort};
ghost use Rattle.covd_filling.specs.Batches.{IsCounted, IsCountedIn, IsCountedAt, AreReady, AreFound};

use cov_base::{Memory, Shelf};
use covd_commands::ahead::read_batch;
use covd_commands::finding::{Source, record_of};
use covd_commands::origins::{Origin, Origins};
use covd_commands::stop::Stop;
use design_data::Design;
use sampler::{EncodedRecord, Plan, bin_record_under};
use std::alloc::Global;
use std::collections::VecDeque;
use std::sync::Arc;
use std::thread;
use std::thread::Threads;
use tally::Tally;

/// A record as its encoding, with its tally under a design. Threads send it.
#[derive(Drop)]
pub(crate) struct Counted {
    pub(crate) rec: EncodedRecord,
    pub(crate) tally: Tally,
}

/// The k-th record of what was read, with its tally.
fn count_source(
    alloc: Global,
    plan: &Plan,
    design: &Design,
    k: u64,
    source: &Source,
) -> Result<Counted, Stop>
    requires short { IsShort source.now }
    requires planned { IsDesignPlan design.now.instances plan.now }
    ensures { IsCountedIn design.now k source.now result }
{
    let rec = record_of(alloc, k, design, source)?;
    let tally = bin_record_under(alloc, plan, design, &rec)?;
    let rec = EncodedRecord::of(alloc, rec)?;
    Ok(Counted { rec, tally })
}

/// The same at an index of a batch, the first of which has the k-th record.
fn count_at(
    alloc: Global,
    plan: &Plan,
    design: &Design,
    k: u64,
    batch: &[Source],
    index: usize,
) -> Result<Counted, Stop>
    requires inside { index < length batch.now }
    requires ready { AreReady k batch.now }
    requires planned { IsDesignPlan design.now.instances plan.now }
    ensures { IsCountedAt design.now k batch.now index result }
{
    count_source(alloc, plan, design, k + index as u64, &batch[index])
}

/// The records of a batch in order, each counted by a thread of its own.
fn all_counted<R: Threads + Sync>(
    rt: &R,
    alloc: Global,
    plan: &Plan,
    design: &Design,
    k: u64,
    batch: &[Source],
) -> Result<Vec<Result<Counted, Stop>>, Memory>
    requires ready { AreReady k batch.now }
    requires planned { IsDesignPlan design.now.instances plan.now }
    ensures len { IfOk result (λ found. length found.items ≡ length batch.now) }
    ensures each { IfOk result (λ found. (index : ℕ) (d : _) → index < length batch.now
        → IsCountedAt design.now k batch.now index (slice_index_or found.items index d)) }
{
    let found = thread::map_indices(
        rt,
        alloc,
        batch.len(),
        &|index: usize| -> Result<Counted, Stop>
            requires { (index < length batch.now) × AreReady k batch.now × IsDesignPlan design.now.instances plan.now }
            ensures { IsCountedAt design.entry.now k batch.entry.now index result }
        { count_at(alloc, plan, design, k, batch, index) },
    )?;
    Ok(found)
}

/// The k-th record, and those that are read ahead with it, each counted.
fn counted_batch<R: Threads + Sync, F: Shelf>(
    rt: &R,
    alloc: Global,
    plan: &Plan,
    design: &Design,
    k: u64,
    origin: Origin,
    later: Origins,
    shelf: &mut F,
) -> Result<VecDeque<Result<Counted, Stop>>, Stop>
    requires room { k + length (origins_of later) < 2 ^ 64 }
    requires planned { IsDesignPlan design.now.instances plan.now }
    ensures same { F.files shelf.new ≡ F.files shelf.old }
    ensures later { F.faults shelf.old ≤ F.faults shelf.new }
    ensures found { IfOk result (λ found.
        AreFound (F.files shelf.old) design.now k (origin_of origin.entry ∷ origins_of later.entry) found.items) }
    ensures some { IfOk result (λ found. 0 < length found.items) }
    ensures unread { IfErr result
        (NoneComes (F.files shelf.old) (F.faults shelf.old) (F.faults shelf.new) (origin_of origin.entry)) }
{
    let batch = read_batch(alloc, design, origin, later, shelf)?;
    let found = all_counted(rt, alloc, plan, design, k, batch.as_slice())?;
    Ok(VecDeque::from_vec(found))
}

/// Counts a batch that begins with the k-th record, where none is found ahead.
fn look_ahead<R: Threads + Sync, F: Shelf>(
    rt: &R,
    alloc: Global,
    plan: &Plan,
    design: &Design,
    k: u64,
    origin: Origin,
    later: Origins,
    found: &mut VecDeque<Result<Counted, Stop>>,
    shelf: &mut F,
) -> Result<(), Stop>
    requires room { k + length (origins_of later) < 2 ^ 64 }
    requires planned { IsDesignPlan design.now.instances plan.now }
    requires found { AreFound (F.files shelf.old) design.now k (origin_of origin ∷ origins_of later) found.old.items }
    ensures same { F.files shelf.new ≡ F.files shelf.old }
    ensures later { F.faults shelf.old ≤ F.faults shelf.new }
    ensures found { OnOk result
        (AreFound (F.files shelf.old) design.now k (origin_of origin.entry ∷ origins_of later.entry) found.new.items) }
    ensures some { OnOk result (0 < length found.new.items) }
    ensures none { OnErr result (length found.new.items ≡ 0) }
    ensures unread { IfErr result
        (NoneComes (F.files shelf.old) (F.faults shelf.old) (F.faults shelf.new) (origin_of origin.entry)) }
{
    if !found.is_empty() {
        return Ok(());
    }
    *found = counted_batch(rt, alloc, plan, design, k, origin, later, shelf)?;
    Ok(())
}

/// The k-th record, counted, where there is one: the first of those that are found ahead. Where none is, its origin and
/// further ones are read, and their records decoded or made, encoded and counted, each in a thread of its own. A batch has
/// 16 records at most, and less than 40 MiB of files. It takes the files' bytes, the records' encodings, which are as
/// long, and their tallies; and while the threads run the decoded records too, some ten times the bytes, and 8 bytes for
/// each bin of the design and each record.
pub(crate) fn next_counted<R: Threads + Sync, F: Shelf>(
    rt: &R,
    alloc: Global,
    plan: &Plan,
    design: &Arc<Design>,
    k: u64,
    origin: Origin,
    later: Origins,
    found: &mut VecDeque<Result<Counted, Stop>>,
    shelf: &mut F,
) -> Result<Counted, Stop>
    requires room { k + length (origins_of later) < 2 ^ 64 }
    requires planned { IsDesignPlan (arc_value design.now).instances plan.now }
    requires found { AreFound (F.files shelf.old) (arc_value design.now) k
        (origin_of origin ∷ origins_of later) found.old.items }
    ensures same { F.files shelf.new ≡ F.files shelf.old }
    ensures later { F.faults shelf.old ≤ F.faults shelf.new }
    ensures found { AreFound (F.files shelf.old) (arc_value design.now) (k + 1) (origins_of later.entry)
        found.new.items }
    ensures next { IsCounted (F.files shelf.old) (F.faults shelf.old) (F.faults shelf.new) (arc_value design.now) k
        (origin_of origin.entry) result }
{
    look_ahead(rt, alloc, plan, design, k, origin, later, found, shelf)?;
    match found.pop_front() {
        Some(each) => each,
        None => unreachable!(),
    }
}
