//! The signals and the instances of a record.
ghost use Rattle.std.specs.Prelude.{◌≡◌};
ghost use Rattle.record_codec.specs.Reading.{Gives, arg_at, signal_at, signals_at, listed_args_at, args_at, instance_at, instances_at};

use crate::fault::Fault;
use crate::fields::{text_within, u8_within, u16_within};
use crate::tables::{Rows, counted};
use crate::{ArgRow, InstRow, SignalRow};
use cov_ground::limits::{LONGEST_NAME, MOST_ARGUMENTS, MOST_BITS, MOST_INSTANCES, MOST_SIGNALS};
use cov_tree::List;
use std::alloc::Global;

/// Rows of a width and a sign each.
#[derive(Drop)]
struct ArgRows;

impl Rows for ArgRows {
    type Row = ArgRow;

    ghost row_at = { λ _. arg_at };

    #[tactic(auto, unfolding(crate::specs::Reading::arg_at))]
    fn row<'a>(&self, _alloc: Global, bytes: &'a [u8]) -> Result<(ArgRow, &'a [u8]), Fault> {
        arg_row(bytes)
    }
}

/// Rows of a name, a width and a sign each.
#[derive(Drop)]
struct SignalRows;

impl Rows for SignalRows {
    type Row = SignalRow;

    ghost row_at = { λ _. signal_at };

    fn row<'a>(&self, alloc: Global, bytes: &'a [u8]) -> Result<(SignalRow, &'a [u8]), Fault> {
        signal_row(alloc, bytes)
    }
}

/// Rows of a name, a group and arguments each, in the form of this version.
#[derive(Drop)]
struct InstanceRows {
    version: u16,
}

impl Rows for InstanceRows {
    type Row = InstRow;

    ghost row_at = { λ rows. instance_at rows.version };

    fn row<'a>(&self, alloc: Global, bytes: &'a [u8]) -> Result<(InstRow, &'a [u8]), Fault> {
        instance_row(alloc, self.version, bytes)
    }
}

#[tactic(auto, unfolding(crate::specs::Reading::arg_at))]
fn arg_row(bytes: &[u8]) -> Result<(ArgRow, &[u8]), Fault>
    ensures { Gives (λ x. (x.0, x.1.now)) result (arg_at bytes.now) }
{
    let (width, rest) = u8_within(1, MOST_BITS, bytes)?;
    let (sign, rest) = u8_within(0, 1, rest)?;
    let row = ArgRow {
        width,
        signed: sign == 1,
    };
    Ok((row, rest))
}

#[tactic(auto, unfolding(crate::specs::Reading::signal_at))]
fn signal_row(alloc: Global, bytes: &[u8]) -> Result<(SignalRow, &[u8]), Fault>
    ensures { Gives (λ x. (x.0, x.1.now)) result (signal_at bytes.now) }
{
    let (name, rest) = text_within(alloc, 1, LONGEST_NAME, 33, bytes)?;
    let (form, rest) = arg_row(rest)?;
    let row = SignalRow {
        name,
        width: form.width,
        signed: form.signed,
    };
    Ok((row, rest))
}

#[tactic(auto, unfolding(crate::specs::Reading::listed_args_at))]
fn listed_args(alloc: Global, bytes: &[u8]) -> Result<(List<ArgRow>, &[u8]), Fault>
    ensures { Gives (λ x. (x.0, x.1.now)) result (listed_args_at bytes.now) }
{
    let (count, rest) = u8_within(0, MOST_ARGUMENTS as u8, bytes)?;
    counted(alloc, &ArgRows, count as u32, rest)
}

// The arguments of an instance. In version 1 nothing stands for them.
#[tactic(auto, unfolding(crate::specs::Reading::args_at))]
fn args(alloc: Global, version: u16, bytes: &[u8]) -> Result<(List<ArgRow>, &[u8]), Fault>
    ensures { Gives (λ x. (x.0, x.1.now)) result (args_at version bytes.now) }
{
    if version == 1 {
        return Ok((List::new(alloc), bytes));
    }
    listed_args(alloc, bytes)
}

#[tactic(auto, unfolding(crate::specs::Reading::instance_at))]
fn instance_row(alloc: Global, version: u16, bytes: &[u8]) -> Result<(InstRow, &[u8]), Fault>
    ensures { Gives (λ x. (x.0, x.1.now)) result (instance_at version bytes.now) }
{
    let (name, rest) = text_within(alloc, 1, LONGEST_NAME, 33, bytes)?;
    let (group, rest) = text_within(alloc, 1, LONGEST_NAME, 33, rest)?;
    let (args, rest) = args(alloc, version, rest)?;
    Ok((InstRow { name, group, args }, rest))
}

/// The signals behind their number.
#[tactic(auto, unfolding(crate::specs::Reading::signals_at))]
pub(crate) fn signal_table(alloc: Global, bytes: &[u8]) -> Result<(List<SignalRow>, &[u8]), Fault>
    ensures { Gives (λ x. (x.0, x.1.now)) result (signals_at bytes.now) }
{
    let (count, rest) = u16_within(0, MOST_SIGNALS as u16, bytes)?;
    counted(alloc, &SignalRows, count as u32, rest)
}

/// The instances behind their number.
#[tactic(auto, unfolding(crate::specs::Reading::instances_at))]
pub(crate) fn instance_table(
    alloc: Global,
    version: u16,
    bytes: &[u8],
) -> Result<(List<InstRow>, &[u8]), Fault>
    ensures { Gives (λ x. (x.0, x.1.now)) result (instances_at version bytes.now) }
{
    let (count, rest) = u16_within(0, MOST_INSTANCES as u16, bytes)?;
    counted(alloc, &InstanceRows { version }, count as u32, rest)
}
