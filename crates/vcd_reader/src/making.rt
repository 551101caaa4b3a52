//! The record of a dump from its start and its plan.
ghost use Rattle.std.specs.Prelude.{◌≡◌, ◌≤◌, List, [], length, IfOk};
ghost use Rattle.cov_ground.specs.Limits.{most_signals, most_instances};
ghost use Rattle.record_codec.specs.declared.record.Event.{Event as AnyEvent};
ghost use Rattle.record_codec.specs.declared.record.Start.{Start as AnyStart};
ghost use Rattle.record_codec.specs.Builders.{HasPushed};
ghost use Rattle.record_codec.specs.Spelling.{fields_of};
ghost use Rattle.record_codec.specs.Starts.{with_events, size_with};
ghost use Rattle.vcd_reader.specs.Refusals.{Gives};
ghost use Rattle.vcd_reader.specs.Moments.{events_of};
ghost use Rattle.vcd_reader.specs.Starting.{start_of, limited, refused};

use crate::start::start_of;
use crate::walking::{Plan, push_events};
use cov_ground::Memory;
use cov_tree::Name;
use design_data::Design;
use record_codec::{MakeFault, Record, RecordBuilder, Start};
use std::alloc::Global;
use vcd_dump::{Dump, DumpFault};

/// A builder with this start. A name that no record can hold counts as want of memory: no text has one.
fn begin(alloc: Global, start: Start) -> Result<RecordBuilder, Memory>
    ensures { IfOk result (λ builder. HasPushed builder start []) }
{
    match RecordBuilder::begin(alloc, start) {
        Ok(builder) => Ok(builder),
        Err(_) => Err(Memory),
    }
}

/// The builder's refusal as that of a dump.
fn refused(fault: MakeFault) -> DumpFault
    ensures { result ≡ refused fault }
{
    match fault {
        MakeFault::TooManyEvents { n } => DumpFault::TooManyEvents { n },
        MakeFault::TooLong { n } => DumpFault::TooLong { n },
        MakeFault::Memory => DumpFault::Memory,
    }
}

/// The record of what was pushed, or that it is above a limit.
fn finish(builder: RecordBuilder) -> Result<Record, DumpFault>
    ensures { (start : AnyStart) (events : List AnyEvent) → HasPushed builder start events
        → Gives fields_of result
        (limited (with_events start events) (size_with start events)) }
{
    match builder.finish() {
        Ok(made) => Ok(made),
        Err(fault) => Err(refused(fault)),
    }
}

/// The builder of a dump's record, with all its events.
fn filled(
    alloc: Global,
    design: &Design,
    dump: &Dump,
    id: &Name,
    plan: &Plan,
) -> Result<RecordBuilder, Memory>
    requires events { length plan.now.events ≤ most_instances }
    requires signals { length plan.now.codes ≤ most_signals }
    ensures { IfOk result (λ builder. HasPushed builder (start_of design.now dump.now id.now)
        (events_of plan.now.rows plan.now.codes plan.now.events dump.now.steps)) }
{
    let start = start_of(alloc, design, dump, id)?;
    let mut builder = begin(alloc, start)?;
    push_events(alloc, plan, &dump.steps, &mut builder)?;
    Ok(builder)
}

/// The record of a dump by its plan.
pub(crate) fn record_by(
    alloc: Global,
    design: &Design,
    dump: &Dump,
    id: &Name,
    plan: &Plan,
) -> Result<Record, DumpFault>
    requires events { length plan.now.events ≤ most_instances }
    requires signals { length plan.now.codes ≤ most_signals }
    ensures { Gives fields_of result (limited
        (with_events (start_of design.now dump.now id.now)
        (events_of plan.now.rows plan.now.codes plan.now.events dump.now.steps))
        (size_with (start_of design.now dump.now id.now)
        (events_of plan.now.rows plan.now.codes plan.now.events dump.now.steps))) }
{
    let builder = filled(alloc, design, dump, id, plan)?;
    finish(builder)
}
