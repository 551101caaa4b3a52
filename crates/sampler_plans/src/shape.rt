//! Whether a record has the design's signals and instances.
ghost use Rattle.std.specs.Prelude.{◌≡◌, ◌↔◌, ◌+◌, ◌<◌, ◌≤◌, length, IsTrue, IfSome, MatchOption, MatchResult, map, slice_get, Some};
ghost use Rattle.cov_counting.specs.Tables.{signal_row, arg_row, arg_rows, instance_row, name_of, instances_of};
ghost use Rattle.sampler_plans.specs.Shape.{FirstDiffering, Shapes};

use cov_tree::Name;
use design_data::{Design, GroupInfo, InstInfo, Signal};
use record_codec::{ArgRow, InstRow, Record, SignalRow};

/// The record's tables are not the design's.
#[derive(Clone, Copy, PartialEq, Eq)]
pub struct WrongShape {
    /// The first place that differs, one side having none included: that of a signal, or that of an instance, counted
    /// on after the design's signals.
    pub at: u32,
}

fn is_signal(signal: &Signal, row: &SignalRow) -> bool
    ensures { IsTrue result ↔ (row.now ≡ signal_row signal.now) }
{
    row.name == signal.name && row.width == signal.width && row.signed == signal.signed
}

fn is_arg(arg: &Signal, row: &ArgRow) -> bool
    ensures { IsTrue result ↔ (row.now ≡ arg_row arg.now) }
{
    row.width == arg.width && row.signed == arg.signed
}

// The rows are those of the arguments, of which a record of version 1 has none.
fn are_args(version: u16, args: &[Signal], rows: &[ArgRow]) -> bool
    ensures { IsTrue result ↔ (rows.now ≡ arg_rows version args.now) }
{
    if version == 1 {
        return rows.is_empty();
    }
    if rows.len() != args.len() {
        return false;
    }
    for (at, arg) in args.iter().enumerate() {
        if !is_arg(arg, &rows[at]) {
            return false;
        }
    }
    true
}

fn is_name(name: &Name, other: &Name) -> bool
    ensures { IsTrue result ↔ (name.now ≡ other.now) }
{
    *name == *other
}

// The name of the group at this place.
fn is_group(groups: &[GroupInfo], place: u32, name: &Name) -> bool
    ensures { IsTrue result ↔ (name.now ≡ name_of (slice_get groups.now place)) }
{
    if place as usize >= groups.len() {
        return name.as_slice().is_empty();
    }
    is_name(name, &groups[place as usize].name)
}

fn is_instance(version: u16, groups: &[GroupInfo], inst: &InstInfo, row: &InstRow) -> bool
    ensures { IsTrue result ↔ (row.now ≡ instance_row version groups.now inst.now) }
{
    row.name == inst.name
        && is_group(groups, inst.group, &row.group)
        && are_args(version, inst.args.as_slice(), row.args.as_slice())
}

// The first place at which the signals differ.
fn differing_signal(signals: &[Signal], rows: &[SignalRow]) -> Option<usize>
    ensures place { MatchOption result (rows.now ≡ map signal_row signals.now) (FirstDiffering rows.now (map signal_row signals.now)) }
    ensures early { IfSome result (λ at. at ≤ length signals.now) }
{
    for (at, signal) in signals.iter().enumerate() {
        if at == rows.len() {
            return Some(at);
        }
        if !is_signal(signal, &rows[at]) {
            return Some(at);
        }
    }
    if rows.len() > signals.len() {
        Some(signals.len())
    } else {
        None
    }
}

// The first place at which the instances differ.
fn differing_instance(version: u16, design: &Design, rows: &[InstRow]) -> Option<usize>
    ensures place { MatchOption result (rows.now ≡ instances_of design.now version) (FirstDiffering rows.now (instances_of design.now version)) }
    ensures early { IfSome result (λ at. at ≤ length design.now.instances) }
{
    let groups = design.groups();
    let instances = design.instances();
    for (at, inst) in instances.iter().enumerate() {
        if at == rows.len() {
            return Some(at);
        }
        if !is_instance(version, groups, inst, &rows[at]) {
            return Some(at);
        }
    }
    if rows.len() > instances.len() {
        Some(instances.len())
    } else {
        None
    }
}

/// Whether the record's signals and instances are the design's, in order. The arguments of sample functions are
/// compared by width and sign in a record of version 2, and not at all in one of version 1. It takes no memory.
pub fn shape_fits(design: &Design, rec: &Record) -> Result<(), WrongShape>
    ensures { Shapes design.now rec.now result }
{
    let signals = design.signals();
    if let Some(at) = differing_signal(signals, rec.signals.as_slice()) {
        return Err(WrongShape { at: at as u32 });
    }
    if let Some(place) = differing_instance(rec.version, design, rec.instances.as_slice()) {
        return Err(WrongShape {
            at: (signals.len() + place) as u32,
        });
    }
    Ok(())
}
