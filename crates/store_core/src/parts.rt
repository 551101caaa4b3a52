//! Records counted under a design in several threads, each of which takes some that stand one behind the other.
ghost use Rattle.std.specs.Prelude.{◌≡◌, ℕ, List, ◌+◌, ◌*◌, ◌/◌, ◌%◌, ◌<◌, ◌++◌, min, map, take, drop, length, slice_index_or, IfOk, OnOk};
ghost use Rattle.std.specs.Arc.{arc_value};
ghost use Rattle.sampler.specs.Plans.{IsDesignPlan};
ghost use Rattle.store_core.specs.Rebins.{tallies_of as tallies_meant};

use crate::counting::tallies_of;
use cov_base::Memory;
use design_data::Design;
use sampler::{EncodedRecord, Plan};
use std::alloc::Global;
use std::sync::Arc;
use std::thread;
use std::thread::Threads;
use tally::Tally;

/// The most threads that take part.
const MOST_PARTS: usize = 16;

/// How many records a thread takes.
fn part_size<R: Threads + Sync>(rt: &R, records: usize) -> usize
    ensures { 0 < result }
{
    let parts = match thread::available_parallelism(rt) {
        Ok(count) => count.get().min(MOST_PARTS),
        Err(_) => 1,
    };
    records.div_ceil(parts.max(1)).max(1)
}

/// The tallies of so many records and so many more, each time by a thread of its own.
fn parts_of<R: Threads + Sync>(
    rt: &R,
    alloc: Global,
    plan: &Plan,
    design: &Design,
    records: &[Arc<EncodedRecord>],
    size: usize,
) -> Result<Vec<Result<Vec<Arc<Tally>>, Memory>>, Memory>
    requires plan { IsDesignPlan design.now.instances plan.now }
    requires size { 0 < size }
    ensures len { IfOk result (λ parts. length parts.items ≡ length records.now / size + min 1 (length records.now % size)) }
    ensures each { IfOk result (λ parts. (n : ℕ) (d : _) → n < length parts.items → IfOk (slice_index_or parts.items n d)
        (λ tallies. map arc_value tallies.items ≡ tallies_meant design.now (map arc_value (take size (drop (n * size) records.now))))) }
{
    let parts = thread::map_chunks(
        rt,
        alloc,
        records,
        size,
        &|start: usize, part: &[Arc<EncodedRecord>]| -> Result<Vec<Arc<Tally>>, Memory>
            requires { IsDesignPlan design.now.instances plan.now }
            ensures { IfOk result (λ tallies. map arc_value tallies.items ≡ tallies_meant design.entry.now (map arc_value part.entry.now)) }
        {
            let _ = start;
            tallies_of(alloc, plan, design, part)
        },
    )?;
    Ok(parts)
}

/// Appends tallies, shared.
fn add_shared(tallies: &[Arc<Tally>], all: &mut Vec<Arc<Tally>>) -> Result<(), Memory>
    ensures { OnOk result (map arc_value all.new.items ≡ map arc_value all.old.items ++ map arc_value tallies.now) }
{
    for tally in tallies {
        all.push(tally.clone()?)?;
    }
    Ok(())
}

/// Appends the tallies of a part.
fn add_part(part: &Result<Vec<Arc<Tally>>, Memory>, all: &mut Vec<Arc<Tally>>) -> Result<(), Memory>
    ensures { (own : List (List (ℕ × ℕ))) → OnOk result (IfOk part.now (λ tallies. map arc_value tallies.items ≡ own)
        → map arc_value all.new.items ≡ map arc_value all.old.items ++ own) }
{
    let Ok(tallies) = part else {
        return Err(Memory);
    };
    add_shared(tallies.as_slice(), all)?;
    Ok(())
}

/// The tallies of all parts.
fn joined(
    alloc: Global,
    design: &Design,
    records: &[Arc<EncodedRecord>],
    size: usize,
    parts: &[Result<Vec<Arc<Tally>>, Memory>],
) -> Result<Vec<Arc<Tally>>, Memory>
    requires size { 0 < size }
    requires len { length parts.now ≡ length records.now / size + min 1 (length records.now % size) }
    requires each { (n : ℕ) (d : _) → n < length parts.now → IfOk (slice_index_or parts.now n d)
        (λ tallies. map arc_value tallies.items ≡ tallies_meant design.now (map arc_value (take size (drop (n * size) records.now)))) }
    ensures { IfOk result (λ all. map arc_value all.items ≡ tallies_meant design.now (map arc_value records.now)) }
{
    let _ = design;
    let _ = records;
    let _ = size;
    let mut all = Vec::new(alloc);
    for n in 0..parts.len() {
        add_part(&parts[n], &mut all)?;
    }
    Ok(all)
}

/// The tally of each record, in order, counted in as many threads as there are processors.
pub(crate) fn tallies_in_threads<R: Threads + Sync>(
    rt: &R,
    alloc: Global,
    plan: &Plan,
    design: &Design,
    records: &[Arc<EncodedRecord>],
) -> Result<Vec<Arc<Tally>>, Memory>
    requires { IsDesignPlan design.now.instances plan.now }
    ensures { IfOk result (λ tallies. map arc_value tallies.items ≡ tallies_meant design.now (map arc_value records.now)) }
{
    let size = part_size(rt, records.len());
    let parts = parts_of(rt, alloc, plan, design, records, size)?;
    joined(alloc, design, records, size, parts.as_slice())
}
