//! What the record of a dump says before its events.
ghost use Rattle.std.specs.Prelude.{◌≡◌, IfOk};
ghost use Rattle.vcd_reader.specs.Starting.{last_time, start_of};

use cov_counting::{instance_rows, signal_rows};
use cov_ground::Memory;
use cov_tree::Name;
use design_data::Design;
use record_codec::Start;
use std::alloc::Global;
use vcd_dump::{Dump, Steps, next_time};

/// The time of the last step, or 0.
fn last_time(steps: &Steps) -> u64
    ensures { result ≡ last_time 0 steps.now }
{
    let mut time = 0;
    let mut rest = steps.as_bytes();
    while let Some((next, later)) = next_time(rest) {
        time = next;
        rest = later;
    }
    time
}

/// What the record says before its events.
#[tactic(auto, unfolding(crate::specs::Starting::start_of))]
pub(crate) fn start_of(
    alloc: Global,
    design: &Design,
    dump: &Dump,
    id: &Name,
) -> Result<Start, Memory>
    ensures { IfOk result (λ start. start ≡ start_of design.now dump.now id.now) }
{
    let signals = signal_rows(alloc, design.signals())?;
    let instances = instance_rows(alloc, 1, design.groups(), design.instances())?;
    Ok(Start {
        version: 1,
        id: id.share()?,
        status: 0,
        seed: 0,
        time: last_time(&dump.steps),
        user: Name::of(alloc, b"vcd")?,
        signals,
        instances,
    })
}
