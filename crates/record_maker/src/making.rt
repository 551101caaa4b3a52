//! The record of a test.
ghost use Rattle.std.specs.Prelude.{◌≡◌, ℕ, ◌<◌, ◌^◌, List, [], length, IfOk};
ghost use Rattle.record_codec.specs.declared.record.Event.{Event as AnyEvent};
ghost use Rattle.record_codec.specs.declared.record.Start.{Start as AnyStart};
ghost use Rattle.record_codec.specs.Builders.{HasPushed};
ghost use Rattle.record_maker.specs.Generator.{start_of as start_meant, events_of, rounds_from};
ghost use Rattle.record_maker.specs.Making.{Makes};

use crate::drawing::first_number;
use crate::pushing::push_rounds;
use crate::start::start_of;
use cov_ground::Memory;
use cov_ground::limits::MOST_EVENTS;
use design_data::Design;
use record_codec::{MakeFault, Record, RecordBuilder, Start};
use std::alloc::Global;

/// How many events the record has.
fn event_count(design: &Design, rounds: u32) -> u64
    ensures { (x : ℕ) → result ≡ length (rounds_from design.now rounds x) }
{
    let round = design.signals().len() + design.instances().len();
    rounds as u64 * round as u64
}

/// A builder with this start. A name that no record can hold counts as want of memory: no design text has one.
fn begin(alloc: Global, start: Start) -> Result<RecordBuilder, Memory>
    ensures { IfOk result (λ builder. HasPushed builder start []) }
{
    match RecordBuilder::begin(alloc, start) {
        Ok(builder) => Ok(builder),
        Err(_) => Err(Memory),
    }
}

/// The builder of a test's record, with all its events.
#[tactic(auto, unfolding(crate::specs::Generator::events_of))]
fn filled(
    alloc: Global,
    design: &Design,
    seed: u64,
    rounds: u32,
    test: u32,
) -> Result<RecordBuilder, Memory>
    ensures { IfOk result (λ builder. HasPushed builder (start_meant design.now seed rounds test) (events_of design.now seed rounds test)) }
{
    let start = start_of(alloc, design, seed, rounds, test)?;
    let mut builder = begin(alloc, start)?;
    push_rounds(
        alloc,
        &mut builder,
        design,
        rounds,
        first_number(seed, test),
    )?;
    Ok(builder)
}

/// The record of what was pushed, or that it is above a limit.
fn finish(builder: RecordBuilder) -> Result<Record, MakeFault>
    ensures { (start : AnyStart) (events : List AnyEvent) → length events < 2 ^ 64 → HasPushed builder start events → Makes start events result }
{
    match builder.finish() {
        Ok(made) => Ok(made),
        Err(fault) => Err(fault),
    }
}

/// The record of the test of this number that a generator makes: as often as `rounds` says, a Set of each signal and then
/// a Sample of each instance, the values being drawn from the seed and the number of the test.
///
/// Its id is `t` with the number, its seed the seed, its time the number of rounds, and its user `make`. It has version 2
/// where some instance has arguments. A record with more than 1,048,576 events is refused before any of them is made.
#[tactic(auto, unfolding(crate::specs::Generator::events_of))]
pub fn make_record(
    alloc: Global,
    design: &Design,
    seed: u64,
    rounds: u32,
    test: u32,
) -> Result<Record, MakeFault>
    ensures { Makes (start_meant design.now seed rounds test)
        (events_of design.now seed rounds test) result }
{
    let n = event_count(design, rounds);
    if n > MOST_EVENTS as u64 {
        return Err(MakeFault::TooManyEvents { n });
    }
    let builder = filled(alloc, design, seed, rounds, test)?;
    finish(builder)
}
