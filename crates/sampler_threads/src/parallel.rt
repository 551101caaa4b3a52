//! Counting in several threads, each of which takes some of the items over all events.
ghost use Rattle.std.specs.Prelude.{◌≡◌, ◌≢◌, ◌<◌, ◌+◌, ℕ, IfOk, OnOk, length, slice_index, slice_index_or};
ghost use Rattle.cov_counting.specs.Tallies.{IsTally};
ghost use Rattle.sampler.specs.Plans.{IsDesignPlan, IsTallyOf};
ghost use Rattle.sampler.specs.Shares.{AreTogether, IsPartTally};
ghost use Rattle.sampler_threads.specs.Merging.{IsMerged, Joins, AllJoin};

use crate::labels::{are_together, labels_of, work_of};
use cov_base::Memory;
use cov_tree::List;
use design_data::Design;
use record_codec::Record;
use sampler::{Plan, counts_under, part_counts, tally_of, zeros};
use std::alloc::Global;
use std::thread;
use std::thread::Threads;
use tally::Tally;

/// With less work than so many samples of items no thread is started.
const LEAST_WORK: u64 = 65_536;

/// The most threads that take part.
const MOST_PARTS: usize = 16;

/// The greater of two numbers.
fn joined(a: u64, b: u64) -> u64
    ensures { Joins a b result }
{
    if a < b { b } else { a }
}

/// Raises the number at this index to that of the other list, where that is greater.
fn join_at(total: &mut Vec<u64>, counts: &[u64], number: usize)
    requires inside { number < length total.old.items }
    requires within { number < length counts.now }
    ensures same { length total.new.items ≡ length total.old.items }
    ensures here { Joins (slice_index total.old.items number) (slice_index counts.now number) (slice_index total.new.items number) }
    ensures others { (other : ℕ) → other ≢ number → slice_index total.new.items other ≡ slice_index total.old.items other }
{
    total[number] = joined(total[number], counts[number]);
}

/// Raises each number to that of the other list, where that is greater.
fn join_all(total: &mut Vec<u64>, counts: &[u64])
    requires { length counts.now ≡ length total.old.items }
    ensures { AllJoin total.old.items counts.now total.new.items }
{
    for number in 0..counts.len() {
        join_at(total, counts, number);
    }
}

/// Raises the counts to those of one more part.
fn add_part(
    design: &Design,
    rec: &Record,
    labels: &[List<u32>],
    parts: u32,
    part: usize,
    found: &Result<Vec<u64>, Memory>,
    total: &mut Vec<u64>,
) -> Result<(), Memory>
    requires found { IfOk found.now (λ counts. IsPartTally design.now rec.now labels.now parts part counts.items) }
    requires merged { IsMerged design.now rec.now labels.now parts part total.old.items }
    ensures { OnOk result (IsMerged design.now rec.now labels.now parts (part + 1) total.new.items) }
{
    let _ = design;
    let _ = rec;
    let _ = labels;
    let _ = parts;
    let _ = part;
    let Ok(counts) = found else {
        return Err(Memory);
    };
    join_all(total, counts.as_slice());
    Ok(())
}

/// The counts of all parts.
fn merged(
    alloc: Global,
    design: &Design,
    rec: &Record,
    labels: &[List<u32>],
    parts: u32,
    found: &[Result<Vec<u64>, Memory>],
) -> Result<Vec<u64>, Memory>
    requires some { 0 < parts }
    requires len { length found.now ≡ parts }
    requires each { (part : ℕ) (d : _) → part < parts → IfOk (slice_index_or found.now part d) (λ counts. IsPartTally design.now rec.now labels.now parts part counts.items) }
    ensures { IfOk result (λ counts. IsTally design.now rec.now counts.items) }
{
    let mut total = zeros(alloc, design.bin_count as usize)?;
    for part in 0..found.len() {
        add_part(design, rec, labels, parts, part, &found[part], &mut total)?;
    }
    Ok(total)
}

/// The counts of each part, each by a thread of its own.
fn all_parts<R: Threads + Sync>(
    rt: &R,
    alloc: Global,
    plan: &Plan,
    design: &Design,
    rec: &Record,
    labels: &[List<u32>],
    parts: u32,
) -> Result<Vec<Result<Vec<u64>, Memory>>, Memory>
    requires plan { IsDesignPlan design.now.instances plan.now }
    requires some { 0 < parts }
    requires together { AreTogether design.now.instances labels.now }
    ensures len { IfOk result (λ found. length found.items ≡ parts) }
    ensures each { IfOk result (λ found. (part : ℕ) (d : _) → part < parts
        → IfOk (slice_index_or found.items part d) (λ counts. IsPartTally design.now rec.now labels.now parts part counts.items)) }
{
    let found = thread::map_indices(
        rt,
        alloc,
        parts as usize,
        &|part: usize| -> Result<Vec<u64>, Memory>
            requires { (part < parts) × (0 < parts) × IsDesignPlan design.now.instances plan.now × AreTogether design.now.instances labels.now }
            ensures { IfOk result (λ counts. IsPartTally design.entry.now rec.entry.now labels.entry.now parts part counts.items) }
        { part_counts(alloc, plan, design, labels, parts, part as u32, rec) },
    )?;
    Ok(found)
}

/// How many threads are worth their start.
fn parts_for<R: Threads + Sync>(rt: &R, design: &Design, rec: &Record) -> u32 {
    if work_of(design, rec) < LEAST_WORK {
        return 1;
    }
    match thread::available_parallelism(rt) {
        Ok(count) => count.get().min(MOST_PARTS) as u32,
        Err(_) => 1,
    }
}

/// The counts of all items, whose labels say to which part they belong.
fn counts_by_labels<R: Threads + Sync>(
    rt: &R,
    alloc: Global,
    plan: &Plan,
    design: &Design,
    rec: &Record,
    labels: &[List<u32>],
    parts: u32,
) -> Result<Vec<u64>, Memory>
    requires plan { IsDesignPlan design.now.instances plan.now }
    requires some { 0 < parts }
    requires together { AreTogether design.now.instances labels.now }
    ensures { IfOk result (λ counts. IsTally design.now rec.now counts.items) }
{
    let found = all_parts(rt, alloc, plan, design, rec, labels, parts)?;
    merged(alloc, design, rec, labels, parts, found.as_slice())
}

/// The counts by labels that are tried, and in this thread alone where a cross doesn't stand with its points.
fn counts_tried<R: Threads + Sync>(
    rt: &R,
    alloc: Global,
    plan: &Plan,
    design: &Design,
    rec: &Record,
    labels: &[List<u32>],
    parts: u32,
) -> Result<Vec<u64>, Memory>
    requires plan { IsDesignPlan design.now.instances plan.now }
    requires some { 0 < parts }
    ensures { IfOk result (λ counts. IsTally design.now rec.now counts.items) }
{
    if are_together(design.instances(), labels) {
        return counts_by_labels(rt, alloc, plan, design, rec, labels, parts);
    }
    counts_under(alloc, plan, design, rec)
}

/// How often each bin of a design is hit in a record, by the bin's number, counted in as many threads as there are
/// processors. Where there is little to do no thread is started.
pub fn counts_par_under<R: Threads + Sync>(
    rt: &R,
    alloc: Global,
    plan: &Plan,
    design: &Design,
    rec: &Record,
) -> Result<Vec<u64>, Memory>
    requires { IsDesignPlan design.now.instances plan.now }
    ensures { IfOk result (λ counts. IsTally design.now rec.now counts.items) }
{
    let parts = parts_for(rt, design, rec);
    if parts <= 1 {
        return counts_under(alloc, plan, design, rec);
    }
    let labels = labels_of(alloc, design, rec, parts)?;
    counts_tried(rt, alloc, plan, design, rec, labels.as_slice(), parts)
}

/// The same as a tally.
pub(crate) fn tally_par_under<R: Threads + Sync>(
    rt: &R,
    alloc: Global,
    plan: &Plan,
    design: &Design,
    rec: &Record,
) -> Result<Tally, Memory>
    requires { IsDesignPlan design.now.instances plan.now }
    ensures { IfOk result (λ tally. IsTallyOf design.now rec.now tally) }
{
    let counts = counts_par_under(rt, alloc, plan, design, rec)?;
    tally_of(alloc, design, rec, counts.as_slice())
}
