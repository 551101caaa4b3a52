//! The events of all instances of a design.
ghost use Rattle.std.specs.Prelude.{◌≡◌, ◌<◌, ◌≤◌, length, IfOk, OnOk, Ok};
ghost use Rattle.cov_ground.specs.Limits.{most_instances};
ghost use Rattle.cov_design.specs.Elaboration.{Elaborates, parts_of};
ghost use Rattle.vcd_reader.specs.Refusals.{Gives};
ghost use Rattle.cov_design.specs.Events.{event_levels};
ghost use Rattle.vcd_reader.specs.Watching.{with_event};
ghost use Rattle.vcd_reader.specs.Events.{watched_in, event_watched, add_event, all_events};
ghost use Rattle.vcd_reader.specs.Records.{watches_of};

use crate::watching::{Watch, Watches, all_watched, first_of, group_event};
use cov_design::event_scope;
use cov_ground::Memory;
use cov_tree::{DesignText, EdgeText, List};
use design_data::{Design, InstInfo};
use std::alloc::Global;
use vcd_dump::DumpFault;

/// The event of an instance of which some edge is written; None where it can't be watched.
#[tactic(auto, using(crate::proofs::Instances::watched_is))]
fn some_watched(
    alloc: Global,
    text: &DesignText,
    design: &Design,
    instance: u32,
    edges: &[EdgeText],
) -> Result<Option<List<Watch>>, Memory>
    requires design { Elaborates text.now ≡ Ok (parts_of design.now) }
    requires instance { instance < length design.now.instances }
    ensures { IfOk result (λ watches. watches ≡ watched_in (event_levels text.now.decls instance) edges.now) }
{
    let scope = event_scope(alloc, text, design, instance)?;
    all_watched(alloc, edges, &scope)
}

/// The event of an instance; None where it can't be watched.
#[tactic(auto, using(crate::proofs::Instances::none_written, crate::proofs::Instances::some_written))]
fn event_watched(
    alloc: Global,
    text: &DesignText,
    design: &Design,
    instance: u32,
    edges: &[EdgeText],
) -> Result<Option<List<Watch>>, Memory>
    requires design { Elaborates text.now ≡ Ok (parts_of design.now) }
    requires instance { instance < length design.now.instances }
    ensures { IfOk result (λ watches. watches ≡ event_watched text.now.decls instance edges.now) }
{
    if edges.is_empty() {
        return Ok(Some(List::new(alloc)));
    }
    some_watched(alloc, text, design, instance, edges)
}

/// Keeps the event of an instance, or that its group is at fault.
fn keep(
    alloc: Global,
    group: u32,
    event: Option<List<Watch>>,
    found: &mut Watches,
) -> Result<(), Memory>
    ensures { OnOk result (found.new ≡ with_event found.old group event) }
{
    match event {
        Some(event) => {
            found.events.push(event)?;
            Ok(())
        }
        None => {
            found.events.push(List::new(alloc))?;
            found.bad.push(group)?;
            Ok(())
        }
    }
}

/// One instance more.
#[tactic(auto, unfolding(crate::specs::Events::add_event))]
fn add_event(
    alloc: Global,
    text: &DesignText,
    design: &Design,
    instance: &InstInfo,
    found: &mut Watches,
) -> Result<(), Memory>
    requires design { Elaborates text.now ≡ Ok (parts_of design.now) }
    requires instance { length found.old.events < length design.now.instances }
    requires few { length design.now.instances ≤ most_instances }
    ensures { OnOk result (found.new ≡ add_event text.now.decls instance.now found.old) }
{
    let number = found.events.as_slice().len() as u32;
    let edges = group_event(text.decls.as_slice(), instance.group);
    let event = event_watched(alloc, text, design, number, edges)?;
    keep(alloc, instance.group, event, found)?;
    Ok(())
}

/// All instances.
#[tactic(auto, using(crate::proofs::Instances::one_longer))]
fn all_events(
    alloc: Global,
    text: &DesignText,
    design: &Design,
    found: &mut Watches,
) -> Result<(), Memory>
    requires design { Elaborates text.now ≡ Ok (parts_of design.now) }
    requires few { length design.now.instances ≤ most_instances }
    requires none { length found.old.events ≡ 0 }
    ensures { OnOk result (found.new ≡ all_events text.now.decls design.now.instances found.old) }
{
    let mut rest = design.instances();
    while let Some((instance, later)) = rest.split_first() {
        add_event(alloc, text, design, instance, found)?;
        rest = later;
    }
    Ok(())
}

/// The events of all instances, or the first group whose event can't be watched.
#[tactic(auto, unfolding(crate::specs::Records::watches_of))]
pub(crate) fn watches_of(
    alloc: Global,
    text: &DesignText,
    design: &Design,
) -> Result<Watches, DumpFault>
    requires design { Elaborates text.now ≡ Ok (parts_of design.now) }
    requires few { length design.now.instances ≤ most_instances }
    ensures { Gives (λ x. x) result (watches_of text.now design.now.instances) }
{
    let mut found = Watches {
        events: List::new(alloc),
        bad: List::new(alloc),
    };
    all_events(alloc, text, design, &mut found)?;
    if let Some(at) = first_of(found.bad.as_slice(), text.decls.as_slice()) {
        return Err(DumpFault::BadEvent { at });
    }
    Ok(found)
}
