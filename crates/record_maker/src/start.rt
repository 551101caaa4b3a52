//! What the record of a test says before its events.
ghost use Rattle.std.specs.Prelude.{◌≡◌, ◌++◌, codes, decimal, IfOk};
ghost use Rattle.std.specs.List.{list_any};
ghost use Rattle.record_maker.specs.Generator.{has_args, version_of as version_meant, start_of as start_meant};

use appending::append_number;
use cov_counting::{instance_rows, signal_rows};
use cov_ground::Memory;
use cov_tree::Name;
use design_data::{Design, InstInfo};
use record_codec::Start;
use std::alloc::Global;

/// Whether some instance has arguments.
fn have_args(instances: &[InstInfo]) -> bool
    ensures { result ≡ list_any has_args instances.now }
{
    instances
        .iter()
        .any(|instance| !instance.args.as_slice().is_empty())
}

/// The version of a record: 2 where some instance has arguments.
fn version_of(design: &Design) -> u16
    ensures { result ≡ version_meant design.now }
{
    if have_args(design.instances()) { 2 } else { 1 }
}

/// The id of a test: `t` and its number.
fn test_id(alloc: Global, test: u32) -> Result<Name, Memory>
    ensures { IfOk result (λ id. id ≡ codes "t" ++ decimal test) }
{
    let mut id = Vec::from_slice(alloc, b"t")?;
    append_number(&mut id, test as u64)?;
    Name::of(alloc, id.as_slice())
}

/// What the record of a test says before its events.
#[tactic(auto, unfolding(crate::specs::Generator::start_of))]
pub(crate) fn start_of(
    alloc: Global,
    design: &Design,
    seed: u64,
    rounds: u32,
    test: u32,
) -> Result<Start, Memory>
    ensures { IfOk result (λ start. start ≡ start_meant design.now seed rounds test) }
{
    let version = version_of(design);
    let signals = signal_rows(alloc, design.signals())?;
    let instances = instance_rows(alloc, version, design.groups(), design.instances())?;
    Ok(Start {
        version,
        id: test_id(alloc, test)?,
        status: 0,
        seed,
        time: rounds as u64,
        user: Name::of(alloc, b"make")?,
        signals,
        instances,
    })
}
