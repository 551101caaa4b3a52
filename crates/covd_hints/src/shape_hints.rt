//! Hints on records that don't fit the design.
ghost use Rattle.std.specs.Prelude.{◌≤◌, length};

use design_data::{Design, GroupInfo, InstInfo, Signal};
use record_codec::{InstRow, Record, SignalRow};
use std::alloc::{AllocError, Global};

/// A signal as its design or its record says it.
#[derive(Clone, Copy)]
struct Column<'a> {
    name: &'a [u8],
    width: u8,
    signed: bool,
}

/// An instance with its covergroup, as the design or the record says it.
#[derive(Clone, Copy)]
struct Sampled<'a> {
    name: &'a [u8],
    group: &'a [u8],
    arguments: usize,
}

fn of_signal(signal: &Signal) -> Column<'_> {
    Column {
        name: signal.name.as_slice(),
        width: signal.width,
        signed: signal.signed,
    }
}

fn of_row(row: &SignalRow) -> Column<'_> {
    Column {
        name: row.name.as_slice(),
        width: row.width,
        signed: row.signed,
    }
}

/// The name of the group at a place; empty where there is none.
fn group_name(groups: &[GroupInfo], place: u32) -> &[u8] {
    match groups.get(place as usize) {
        Some(group) => group.name.as_slice(),
        None => &[],
    }
}

/// The instance as a record of that version has it.
fn of_instance<'a>(groups: &'a [GroupInfo], inst: &'a InstInfo, version: u16) -> Sampled<'a> {
    Sampled {
        name: inst.name.as_slice(),
        group: group_name(groups, inst.group),
        arguments: if version == 1 {
            0
        } else {
            inst.args.as_slice().len()
        },
    }
}

fn of_inst_row(row: &InstRow) -> Sampled<'_> {
    Sampled {
        name: row.name.as_slice(),
        group: row.group.as_slice(),
        arguments: row.args.as_slice().len(),
    }
}

/// A signal in words.
fn column_text(alloc: Global, column: Option<Column<'_>>) -> Result<String, AllocError> {
    let Some(column) = column else {
        return format!(in alloc; "missing");
    };
    let name = String::from_utf8_lossy(alloc, column.name)?;
    let sign = if column.signed { "signed" } else { "unsigned" };
    format!(in alloc; "{name} of width {}, {sign}", column.width)
}

/// An instance in words.
fn sampled_text(alloc: Global, sampled: Option<Sampled<'_>>) -> Result<String, AllocError> {
    let Some(sampled) = sampled else {
        return format!(in alloc; "missing");
    };
    let name = String::from_utf8_lossy(alloc, sampled.name)?;
    let group = String::from_utf8_lossy(alloc, sampled.group)?;
    format!(in alloc; "{name} of {group}, arguments: {}", sampled.arguments)
}

/// Where a record differs from the design, and how both say it.
fn differing(
    alloc: Global,
    name: &str,
    what: &str,
    number: usize,
    meant: &str,
    said: &str,
) -> Result<String, AllocError> {
    format!(in alloc;
        "{name}: {what} {number} is {meant} in the design, and {said} in the record; covd tables prints what a record has to announce\n"
    )
}

/// That an instance is as both say it, and its arguments differ.
fn unlike_arguments(
    alloc: Global,
    name: &str,
    number: usize,
    said: &str,
) -> Result<String, AllocError> {
    format!(in alloc;
        "{name}: of instance {number}, {said}, the widths or signs of the arguments differ; covd tables prints what a record has to announce\n"
    )
}

/// The hint on a signal, by its number.
fn signal_hint(
    alloc: Global,
    name: &str,
    design: &Design,
    rec: &Record,
    number: usize,
) -> Result<String, AllocError> {
    let meant = column_text(alloc, design.signals().get(number).map(of_signal))?;
    let said = column_text(alloc, rec.signals.as_slice().get(number).map(of_row))?;
    differing(alloc, name, "signal", number, meant.as_str(), said.as_str())
}

/// The hint on an instance, by its number.
fn instance_hint(
    alloc: Global,
    name: &str,
    design: &Design,
    rec: &Record,
    number: usize,
) -> Result<String, AllocError> {
    let groups = design.groups();
    let meant = match design.instances().get(number) {
        Some(inst) => Some(of_instance(groups, inst, rec.version)),
        None => None,
    };
    let said = match rec.instances.as_slice().get(number) {
        Some(row) => Some(of_inst_row(row)),
        None => None,
    };
    let meant = sampled_text(alloc, meant)?;
    let said = sampled_text(alloc, said)?;
    if meant == said {
        return unlike_arguments(alloc, name, number, said.as_str());
    }
    differing(
        alloc,
        name,
        "instance",
        number,
        meant.as_str(),
        said.as_str(),
    )
}

/// The hint on a record that differs from the design at a place: that of a signal, or of an instance, counted on after the
/// design's signals.
pub(crate) fn shape_hint(
    alloc: Global,
    name: &str,
    design: &Design,
    rec: &Record,
    at: usize,
) -> Option<String> {
    let signals = design.signals().len();
    // behind the design's signals stand further ones of the record, or instances
    if at < signals || rec.signals.as_slice().len() != signals {
        signal_hint(alloc, name, design, rec, at).ok()
    } else {
        instance_hint(alloc, name, design, rec, at - signals).ok()
    }
}
