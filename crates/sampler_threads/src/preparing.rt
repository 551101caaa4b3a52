//! Records that are binned in threads.
ghost use Rattle.std.specs.Prelude.{◌≡◌, IfOk};
ghost use Rattle.std.specs.Arc.{arc_value};
ghost use Rattle.sampler.specs.Plans.{IsDesignPlan, IsTallyOf};

use crate::parallel::tally_par_under;
use cov_base::{Gate, Memory};
use design_data::Design;
use record_codec::Record;
use sampler::{Plan, Prepared};
use std::alloc::Global;
use std::sync::Arc;
use std::thread::Threads;
use tally::Tally;

/// The tally of a record.
fn tally_par<R: Threads + Sync>(
    rt: &R,
    alloc: Global,
    design: &Design,
    rec: &Record,
) -> Result<Tally, Memory>
    ensures { IfOk result (λ tally. IsTallyOf design.now rec.now tally) }
{
    let plan = Plan::of(alloc, design)?;
    tally_par_under(rt, alloc, &plan, design, rec)
}

/// The record with its encoding and its tally under the design, as `prepare` makes it, binned in as many threads as there
/// are processors: each takes some of the items over all events. Where there is little to do no thread is started, and
/// what a thread that can't be started would do the caller does. The gate is passed at place 1 before the record is
/// binned and at place 2 after it.
pub fn bin_record_par<R: Threads + Sync, G: Gate>(
    rt: &R,
    alloc: Global,
    design: &Arc<Design>,
    rec: Record,
    gate: &G,
) -> Result<Prepared, Memory>
    ensures design { IfOk result (λ p. p.under ≡ arc_value design.now) }
    ensures of { IfOk result (λ p. p.of ≡ rec) }
{
    gate.pass(1);
    let tally = tally_par(rt, alloc, design, &rec)?;
    gate.pass(2);
    Prepared::of(alloc, design, rec, tally)
}

/// The same by what is worked out of the design, for callers that prepare many records under one design.
pub fn bin_record_par_under<R: Threads + Sync, G: Gate>(
    rt: &R,
    alloc: Global,
    plan: &Plan,
    design: &Arc<Design>,
    rec: Record,
    gate: &G,
) -> Result<Prepared, Memory>
    requires { IsDesignPlan (arc_value design.now).instances plan.now }
    ensures design { IfOk result (λ p. p.under ≡ arc_value design.now) }
    ensures of { IfOk result (λ p. p.of ≡ rec) }
{
    gate.pass(1);
    let tally = tally_par_under(rt, alloc, plan, design, &rec)?;
    gate.pass(2);
    Prepared::of(alloc, design, rec, tally)
}
