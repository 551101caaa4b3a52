//! How often each bin of a design is hit in a record.
ghost use Rattle.std.specs.Prelude.{◌≡◌, ◌<◌, IfOk, OnOk, length};
ghost use Rattle.cov_counting.specs.Tallies.{IsTally};
ghost use Rattle.sampler_plans.specs.Shares.{IsShareOf, AreTogether, IsPartTally};
ghost use Rattle.sampler_plans.specs.Plans.{IsDesignPlan};
ghost use Rattle.sampler.specs.Starting.{AreAllZero};
ghost use Rattle.sampler.specs.Walking.{IsWork, ShareCounted};
ghost use Rattle.sampler.specs.Plans.{IsTallyOf};

use crate::quick::QuickTable;
use crate::starting::{inst_states, unknown_values};
use crate::walking::walk;
use cov_base::Memory;
use cov_tree::{List, Shared};
use design_data::{Design, InstInfo};
use record_codec::Record;
use sampler_plans::{InstPlan, Plan, share_of};
use std::alloc::Global;
use tally::Tally;

/// Takes the items of a share over the record, whose counts are all 0 before.
fn count_share(
    alloc: Global,
    instances: &[InstInfo],
    plans: &[InstPlan],
    share: &[Shared<List<u32>>],
    rec: &Record,
    counts: &mut [u64],
) -> Result<(), Memory>
    requires work { IsWork instances.now plans.now share.now (length counts.old) }
    requires zero { AreAllZero counts.old }
    ensures { OnOk result (ShareCounted rec.now instances.now share.now counts.old counts.new) }
{
    let mut kept = inst_states(alloc, instances, plans, share, counts)?;
    let mut values = unknown_values(alloc)?;
    let table = QuickTable::of(alloc, rec, instances, plans, share, counts)?;
    walk(
        rec,
        instances,
        plans,
        share,
        &table,
        values.as_mut_slice(),
        &mut kept,
        counts,
    )?;
    Ok(())
}

/// A count of 0 for each bin.
pub fn zeros(alloc: Global, count: usize) -> Result<Vec<u64>, Memory>
    ensures same { IfOk result (λ counts. length counts.items ≡ count) }
    ensures zero { IfOk result (λ counts. AreAllZero counts.items) }
{
    Ok(Vec::from_elem(alloc, 0, count)?)
}

/// The counts of the items of a share; those of all others are 0.
fn share_counts(
    alloc: Global,
    plan: &Plan,
    design: &Design,
    labels: &[List<u32>],
    parts: u32,
    part: u32,
    share: &[Shared<List<u32>>],
    rec: &Record,
) -> Result<Vec<u64>, Memory>
    requires plan { IsDesignPlan design.now.instances plan.now }
    requires parts { 0 < parts }
    requires together { AreTogether design.now.instances labels.now }
    requires share { IsShareOf design.now.instances labels.now parts part share.now }
    ensures { IfOk result (λ counts. IsPartTally design.now rec.now labels.now parts part counts.items) }
{
    let _ = labels;
    let _ = parts;
    let _ = part;
    let mut counts = zeros(alloc, design.bin_count as usize)?;
    let plans = plan.instances.as_slice();
    count_share(
        alloc,
        design.instances(),
        plans,
        share,
        rec,
        counts.as_mut_slice(),
    )?;
    Ok(counts)
}

/// The counts of the items that belong to this part, by the bin's number; those of all others are 0. An item belongs to the
/// part that is its label's rest by `parts`; a label that is missing is 0. With a cross its points belong to the part.
pub fn part_counts(
    alloc: Global,
    plan: &Plan,
    design: &Design,
    labels: &[List<u32>],
    parts: u32,
    part: u32,
    rec: &Record,
) -> Result<Vec<u64>, Memory>
    requires plan { IsDesignPlan design.now.instances plan.now }
    requires parts { 0 < parts }
    requires together { AreTogether design.now.instances labels.now }
    ensures { IfOk result
        (λ counts. IsPartTally design.now rec.now labels.now parts part counts.items) }
{
    let share = share_of(alloc, design.instances(), labels, parts, part)?;
    let share = share.as_slice();
    share_counts(alloc, plan, design, labels, parts, part, share, rec)
}

/// How often each bin of a design is hit in a record, by the bin's number. `plan` is what is worked out of the design.
pub fn counts_under(
    alloc: Global,
    plan: &Plan,
    design: &Design,
    rec: &Record,
) -> Result<Vec<u64>, Memory>
    requires { IsDesignPlan design.now.instances plan.now }
    ensures { IfOk result (λ counts. IsTally design.now rec.now counts.items) }
{
    let counts = part_counts(alloc, plan, design, &[], 1, 0, rec)?;
    Ok(counts)
}

/// How often each bin of a design is hit in a record whose tables are the design's. `plan` is what is worked out of the
/// design, for callers that count many records under one design.
pub fn bin_record_under(
    alloc: Global,
    plan: &Plan,
    design: &Design,
    rec: &Record,
) -> Result<Tally, Memory>
    requires { IsDesignPlan design.now.instances plan.now }
    ensures { IfOk result (λ tally. IsTallyOf design.now rec.now tally) }
{
    let counts = counts_under(alloc, plan, design, rec)?;
    tally_of(alloc, design, rec, counts.as_slice())
}

/// The rows of the counts.
pub fn tally_of(
    alloc: Global,
    design: &Design,
    rec: &Record,
    counts: &[u64],
) -> Result<Tally, Memory>
    requires { IsTally design.now rec.now counts.now }
    ensures { IfOk result (λ tally. IsTallyOf design.now rec.now tally) }
{
    let _few = design.bin_count;
    let _ = rec;
    Ok(Tally::of(alloc, counts)?)
}

/// How often each bin of a design is hit in a record whose tables are the design's: each event is taken once for all
/// instances, and no trace is kept.
pub fn bin_record(alloc: Global, design: &Design, rec: &Record) -> Result<Tally, Memory>
    ensures { IfOk result (λ tally. IsTallyOf design.now rec.now tally) }
{
    let plan = Plan::of(alloc, design)?;
    bin_record_under(alloc, &plan, design, rec)
}
