//! The admission of one record.
ghost use Rattle.std.specs.Prelude.{◌≡◌, ◌==◌, ◌||◌, not, IfOk, true};
ghost use Rattle.std.specs.Arc.{arc_value};
ghost use Rattle.cov_history.specs.Tables.{fits};
ghost use Rattle.merge_store.specs.Stores.{opening_of, entries_of};
ghost use Rattle.sampler.specs.Plans.{IsDesignPlan, IsTallyOf};
ghost use Rattle.sampler.specs.Shape.{Fits};
ghost use Rattle.covd_filling.specs.Steps.{IsPlain, Admits, IsRefusal};

use crate::batches::Counted;
use cov_base::{Memory, OpenGate};
use covd_commands::Status;
use covd_commands::stop::Stop;
use covd_commands::unadmitted::{full, id_taken, which_word};
use design_data::Design;
use merge_store::{AdmitFault, Store};
use record_codec::Record;
use sampler::{Plan, Prepared};
use sampler_threads::bin_record_par_under;
use std::alloc::Global;
use std::sync::Arc;
use std::thread::Threads;

/// What becomes of a record that is found.
#[derive(Clone, Copy)]
pub(crate) enum Taking {
    /// It is in the store.
    Taken,
    /// It is left out: its test ended so, and tests that ended OK alone are asked for.
    Unpassed(u8),
}

/// Whether the test of a record is asked for that ended so.
pub(crate) fn may_pass(passed: bool, status: u8) -> bool
    ensures { result ≡ (not passed || status == 0) }
{
    !passed || status == 0
}

/// Why the k-th record isn't admitted. No record is prepared under an older design, so that none is too late.
fn refused(alloc: Global, k: u64, fault: AdmitFault) -> Result<Stop, Memory>
    ensures { IfOk result (IsRefusal k fault) }
{
    let text = match fault {
        AdmitFault::IdTaken { digest } => id_taken(alloc, k, &digest)?,
        AdmitFault::Full { which, have, want } => full(alloc, k, which_word(which), have, want)?,
        AdmitFault::Moved { .. } | AdmitFault::Memory => return Ok(Stop::Memory),
    };
    Ok(Stop::with(Status::AdmitRefused, text))
}

/// Admits the k-th record, which is prepared.
fn admit_prepared(alloc: Global, store: &mut Store, k: u64, prepared: Prepared) -> Result<(), Stop>
    requires plain { IsPlain prepared.under store.old }
    requires fits { fits prepared.under prepared.of ≡ true }
    ensures opening { opening_of store.new ≡ opening_of store.old }
    ensures admits { Admits prepared.under k (entries_of store.old) prepared.of (entries_of store.new) result }
{
    let since = store.point();
    match store.admit(0, since, prepared) {
        Ok(_) => Ok(()),
        Err((_, fault)) => Err(refused(alloc, k, fault)?),
    }
}

/// Admits the k-th record by caller 0, which is binned in threads. `plan` is what is worked out of the design, once for
/// all records.
pub(crate) fn admit_record<R: Threads + Sync>(
    rt: &R,
    alloc: Global,
    design: &Arc<Design>,
    plan: &Plan,
    store: &mut Store,
    k: u64,
    rec: Record,
) -> Result<(), Stop>
    requires plain { IsPlain (arc_value design.now) store.old }
    requires planned { IsDesignPlan (arc_value design.now).instances plan.now }
    requires fits { Fits (arc_value design.now) rec }
    ensures opening { opening_of store.new ≡ opening_of store.old }
    ensures admits { Admits (arc_value design.now) k (entries_of store.old) rec (entries_of store.new) result }
{
    let prepared = bin_record_par_under(rt, alloc, plan, design, rec, &OpenGate)?;
    admit_prepared(alloc, store, k, prepared)?;
    Ok(())
}

/// Admits the k-th record by caller 0, which is counted.
pub(crate) fn admit_counted(
    alloc: Global,
    design: &Arc<Design>,
    store: &mut Store,
    k: u64,
    counted: Counted,
) -> Result<(), Stop>
    requires plain { IsPlain (arc_value design.now) store.old }
    requires fits { Fits (arc_value design.now) counted.rec }
    requires counted { IsTallyOf (arc_value design.now) counted.rec counted.tally }
    ensures opening { opening_of store.new ≡ opening_of store.old }
    ensures admits { Admits (arc_value design.now) k (entries_of store.old) counted.rec (entries_of store.new) result }
{
    let prepared = Prepared::of_encoded(alloc, design, counted.rec, counted.tally)?;
    admit_prepared(alloc, store, k, prepared)?;
    Ok(())
}
