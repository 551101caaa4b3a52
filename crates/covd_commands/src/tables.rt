//! The lines of what a writer of records has to announce.
ghost use Rattle.std.specs.Prelude.{◌≡◌, ◌++◌, IfOk, OnOk, slice_get};
ghost use Rattle.covd_commands.specs.DesignTables.{numbered, sign_word as sign_meant, typed_name, signal_line, argument_line, name_of, instance_line, instance_lines, tables_text};

use appending::{append, append_number};
use cov_base::Memory;
use design_data::{Design, GroupInfo, InstInfo, Signal};
use std::alloc::Global;

/// How a signal's bits are read.
fn sign_word(signed: bool) -> &'static str
    ensures { result.now ≡ sign_meant signed }
{
    if signed { "signed" } else { "unsigned" }
}

/// A signal's width, sign and name, to the end of the line.
fn append_typed_name(text: &mut Vec<u8>, signal: &Signal) -> Result<(), Memory>
    ensures { OnOk result (text.new.items ≡ text.old.items ++ typed_name signal.now) }
{
    append_number(text, signal.width as u64)?;
    append(text, b" ")?;
    append(text, sign_word(signal.signed).as_bytes())?;
    append(text, b" ")?;
    append(text, signal.name.as_slice())?;
    append(text, b"\n")
}

/// The line of the signal of this number.
fn append_signal(text: &mut Vec<u8>, number: u64, signal: &Signal) -> Result<(), Memory>
    ensures { OnOk result (text.new.items ≡ text.old.items ++ signal_line number signal.now) }
{
    append(text, b"signal ")?;
    append_number(text, number)?;
    append(text, b" ")?;
    append_typed_name(text, signal)
}

/// The lines of signals.
fn append_signals(text: &mut Vec<u8>, signals: &[Signal]) -> Result<(), Memory>
    ensures { OnOk result (text.new.items ≡ text.old.items ++ numbered signal_line 0 signals.now) }
{
    for (number, signal) in signals.iter().enumerate() {
        append_signal(text, number as u64, signal)?;
    }
    Ok(())
}

/// The line of an argument of the instance of this number.
fn append_argument(
    text: &mut Vec<u8>,
    instance: u64,
    number: u64,
    argument: &Signal,
) -> Result<(), Memory>
    ensures { OnOk result (text.new.items ≡ text.old.items ++ argument_line instance number argument.now) }
{
    append(text, b"argument ")?;
    append_number(text, instance)?;
    append(text, b" ")?;
    append_number(text, number)?;
    append(text, b" ")?;
    append_typed_name(text, argument)
}

/// The lines of the arguments of the instance of this number.
fn append_arguments(text: &mut Vec<u8>, instance: u64, arguments: &[Signal]) -> Result<(), Memory>
    ensures { OnOk result (text.new.items ≡ text.old.items ++ numbered (argument_line instance) 0 arguments.now) }
{
    for (number, argument) in arguments.iter().enumerate() {
        append_argument(text, instance, number as u64, argument)?;
    }
    Ok(())
}

/// The name of the group at this place.
fn group_name(groups: &[GroupInfo], place: u32) -> &[u8]
    ensures { result.now ≡ name_of (slice_get groups.now place) }
{
    match groups.get(place as usize) {
        Some(group) => group.name.as_slice(),
        None => b"",
    }
}

/// The line of the instance of this number.
fn append_instance(
    text: &mut Vec<u8>,
    groups: &[GroupInfo],
    number: u64,
    instance: &InstInfo,
) -> Result<(), Memory>
    ensures { OnOk result (text.new.items ≡ text.old.items ++ instance_line groups.now number instance.now) }
{
    append(text, b"instance ")?;
    append_number(text, number)?;
    append(text, b" ")?;
    append(text, group_name(groups, instance.group))?;
    append(text, b" ")?;
    append(text, instance.name.as_slice())?;
    append(text, b"\n")
}

/// The line of the instance of this number, and those of its arguments.
fn append_with_arguments(
    text: &mut Vec<u8>,
    groups: &[GroupInfo],
    number: u64,
    instance: &InstInfo,
) -> Result<(), Memory>
    ensures { OnOk result (text.new.items ≡ text.old.items ++ instance_lines groups.now number instance.now) }
{
    append_instance(text, groups, number, instance)?;
    append_arguments(text, number, instance.args.as_slice())
}

/// The lines of instances.
fn append_instances(
    text: &mut Vec<u8>,
    groups: &[GroupInfo],
    instances: &[InstInfo],
) -> Result<(), Memory>
    ensures { OnOk result (text.new.items ≡ text.old.items ++ numbered (instance_lines groups.now) 0 instances.now) }
{
    for (number, instance) in instances.iter().enumerate() {
        append_with_arguments(text, groups, number as u64, instance)?;
    }
    Ok(())
}

/// The lines of the signals of a design, and of its instances with the arguments of their sample functions.
#[tactic(auto, unfolding(crate::specs::DesignTables::tables_text))]
pub(crate) fn tables_lines(alloc: Global, design: &Design) -> Result<Vec<u8>, Memory>
    ensures { IfOk result (λ text. text.items ≡ tables_text design.now) }
{
    let mut text = Vec::new(alloc);
    append_signals(&mut text, design.signals())?;
    append_instances(&mut text, design.groups(), design.instances())?;
    Ok(text)
}
