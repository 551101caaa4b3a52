//! The tables that a record of a design has.
ghost use Rattle.std.specs.Prelude.{◌≡◌, map, slice_get, IfOk};
ghost use Rattle.cov_counting.specs.Tables.{signal_row as row_of_signal, arg_row as row_of_arg, arg_rows as rows_of_args, name_of, instance_row as row_of_instance};

use cov_ground::Memory;
use cov_tree::{List, Name};
use design_data::{GroupInfo, InstInfo, Signal};
use record_codec::{ArgRow, InstRow, SignalRow};
use std::alloc::Global;

/// The rows of signals, in order.
pub fn signal_rows(alloc: Global, signals: &[Signal]) -> Result<List<SignalRow>, Memory>
    ensures { IfOk result (λ rows. rows ≡ map row_of_signal signals.now) }
{
    let mut rows = List::new(alloc);
    let mut rest = signals;
    while let Some((signal, later)) = rest.split_first() {
        rows.push(signal_row(alloc, signal)?)?;
        rest = later;
    }
    Ok(rows)
}

fn signal_row(alloc: Global, signal: &Signal) -> Result<SignalRow, Memory>
    ensures { IfOk result (λ row. row ≡ row_of_signal signal.now) }
{
    Ok(SignalRow {
        name: signal.name.share()?,
        width: signal.width,
        signed: signal.signed,
    })
}

/// The rows of arguments.
fn all_arg_rows(alloc: Global, args: &[Signal]) -> Result<List<ArgRow>, Memory>
    ensures { IfOk result (λ rows. rows ≡ map row_of_arg args.now) }
{
    let mut rows = List::new(alloc);
    let mut rest = args;
    while let Some((arg, later)) = rest.split_first() {
        rows.push(ArgRow {
            width: arg.width,
            signed: arg.signed,
        })?;
        rest = later;
    }
    Ok(rows)
}

/// The rows of arguments; none in version 1.
fn arg_rows(alloc: Global, version: u16, args: &[Signal]) -> Result<List<ArgRow>, Memory>
    ensures { IfOk result (λ rows. rows ≡ rows_of_args version args.now) }
{
    if version == 1 {
        return Ok(List::new(alloc));
    }
    all_arg_rows(alloc, args)
}

/// The name of a group.
fn group_name(alloc: Global, groups: &[GroupInfo], group: u32) -> Result<Name, Memory>
    ensures { IfOk result (λ name. name ≡ name_of (slice_get groups.now group)) }
{
    match groups.get(group as usize) {
        Some(group) => group.name.share(),
        None => Name::of(alloc, &[]),
    }
}

fn instance_row(
    alloc: Global,
    version: u16,
    groups: &[GroupInfo],
    instance: &InstInfo,
) -> Result<InstRow, Memory>
    ensures { IfOk result (λ row. row ≡ row_of_instance version groups.now instance.now) }
{
    let group = group_name(alloc, groups, instance.group)?;
    let args = arg_rows(alloc, version, instance.args.as_slice())?;
    Ok(InstRow {
        name: instance.name.share()?,
        group,
        args,
    })
}

/// The rows of instances, in order; a record of version 1 has none of arguments.
pub fn instance_rows(
    alloc: Global,
    version: u16,
    groups: &[GroupInfo],
    instances: &[InstInfo],
) -> Result<List<InstRow>, Memory>
    ensures { IfOk result (λ rows. rows ≡ map (row_of_instance version groups.now) instances.now) }
{
    let mut rows = List::new(alloc);
    let mut rest = instances;
    while let Some((instance, later)) = rest.split_first() {
        rows.push(instance_row(alloc, version, groups, instance)?)?;
        rest = later;
    }
    Ok(rows)
}
