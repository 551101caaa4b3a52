//! Whether an ask was made for a history: a record fits the design at its point, a text has the opening design's tables.
ghost use Rattle.std.specs.Prelude.{◌≡◌, ◌↔◌, ◌==◌, ◌&&◌, nat_le, length, take, if◌then◌else◌, [], true};
ghost use Rattle.cov_history.specs.History.{design_of};
ghost use Rattle.cov_history.specs.Tables as meant;
ghost use Rattle.cov_history.specs.Answers.{Suits};

use cov_history::{Ask, Entry, design_at};
use design_data::{Design, GroupInfo, InstInfo, Signal};
use record_codec::{ArgRow, InstRow, Record, SignalRow};

fn same_sign(signed: bool, other: bool) -> bool
    ensures { result ≡ meant.same_sign signed other }
{
    signed == other
}

/// The name of the group at a place; none where there is no group.
fn group_name(groups: &[GroupInfo], group: u32) -> &[u8]
    ensures { result.now ≡ meant.group_name groups.now group }
{
    match groups.get(group as usize) {
        Some(info) => info.name.as_slice(),
        None => &[],
    }
}

// ---- a record and a design

fn is_signal(row: &SignalRow, signal: &Signal) -> bool
    ensures { result ≡ meant.is_signal row.now signal.now }
{
    row.name.as_slice() == signal.name.as_slice()
        && row.width == signal.width
        && same_sign(row.signed, signal.signed)
}

fn are_signals(rows: &[SignalRow], signals: &[Signal]) -> bool
    ensures { result ≡ meant.agree meant.is_signal rows.now signals.now }
{
    let mut left = signals;
    let mut rest = rows;
    while let Some((row, later)) = rest.split_first() {
        let Some((signal, others)) = left.split_first() else {
            return false;
        };
        if !is_signal(row, signal) {
            return false;
        }
        left = others;
        rest = later;
    }
    left.is_empty()
}

fn is_arg(row: &ArgRow, arg: &Signal) -> bool
    ensures { result ≡ meant.is_arg row.now arg.now }
{
    row.width == arg.width && same_sign(row.signed, arg.signed)
}

fn are_args(rows: &[ArgRow], args: &[Signal]) -> bool
    ensures { result ≡ meant.agree meant.is_arg rows.now args.now }
{
    let mut left = args;
    let mut rest = rows;
    while let Some((row, later)) = rest.split_first() {
        let Some((arg, others)) = left.split_first() else {
            return false;
        };
        if !is_arg(row, arg) {
            return false;
        }
        left = others;
        rest = later;
    }
    left.is_empty()
}

/// The arguments that a record of a version has to have.
fn args_in(version: u16, args: &[Signal]) -> &[Signal]
    ensures { result.now ≡ (if version == 1 then [] else args.now) }
{
    if version == 1 {
        return &[];
    }
    args
}

fn is_instance(version: u16, groups: &[GroupInfo], row: &InstRow, inst: &InstInfo) -> bool
    ensures { result ≡ meant.is_instance version groups.now row.now inst.now }
{
    row.name.as_slice() == inst.name.as_slice()
        && row.group.as_slice() == group_name(groups, inst.group)
        && are_args(row.args.as_slice(), args_in(version, inst.args.as_slice()))
}

fn are_instances(version: u16, groups: &[GroupInfo], rows: &[InstRow], insts: &[InstInfo]) -> bool
    ensures { result ≡ meant.agree (meant.is_instance version groups.now) rows.now insts.now }
{
    let mut left = insts;
    let mut rest = rows;
    while let Some((row, later)) = rest.split_first() {
        let Some((inst, others)) = left.split_first() else {
            return false;
        };
        if !is_instance(version, groups, row, inst) {
            return false;
        }
        left = others;
        rest = later;
    }
    left.is_empty()
}

/// Whether a record's tables are those of a design, in order.
#[tactic(auto, unfolding(cov_history::specs::Tables::fits))]
pub fn fits(design: &Design, content: &Record) -> bool
    ensures { result ≡ meant.fits design.now content.now }
{
    are_signals(content.signals.as_slice(), design.signals())
        && are_instances(
            content.version,
            design.groups(),
            content.instances.as_slice(),
            design.instances(),
        )
}

// ---- two designs

fn same_signal(signal: &Signal, other: &Signal) -> bool
    ensures { result ≡ meant.same_signal signal.now other.now }
{
    signal.name.as_slice() == other.name.as_slice()
        && signal.width == other.width
        && same_sign(signal.signed, other.signed)
}

fn same_signals(signals: &[Signal], others: &[Signal]) -> bool
    ensures { result ≡ meant.agree meant.same_signal signals.now others.now }
{
    let mut left = others;
    let mut rest = signals;
    while let Some((signal, later)) = rest.split_first() {
        let Some((other, more)) = left.split_first() else {
            return false;
        };
        if !same_signal(signal, other) {
            return false;
        }
        left = more;
        rest = later;
    }
    left.is_empty()
}

fn same_instance(
    groups: &[GroupInfo],
    others: &[GroupInfo],
    inst: &InstInfo,
    other: &InstInfo,
) -> bool
    ensures { result ≡ meant.same_instance groups.now others.now inst.now other.now }
{
    inst.name.as_slice() == other.name.as_slice()
        && group_name(groups, inst.group) == group_name(others, other.group)
        && same_signals(inst.args.as_slice(), other.args.as_slice())
}

fn same_instances(
    groups: &[GroupInfo],
    others: &[GroupInfo],
    insts: &[InstInfo],
    other_insts: &[InstInfo],
) -> bool
    ensures { result ≡ meant.agree (meant.same_instance groups.now others.now) insts.now other_insts.now }
{
    let mut left = other_insts;
    let mut rest = insts;
    while let Some((inst, later)) = rest.split_first() {
        let Some((other, more)) = left.split_first() else {
            return false;
        };
        if !same_instance(groups, others, inst, other) {
            return false;
        }
        left = more;
        rest = later;
    }
    left.is_empty()
}

/// Whether two designs have the same signals, instances and arguments.
#[tactic(auto, unfolding(cov_history::specs::Tables::same_tables))]
pub fn same_tables(design: &Design, other: &Design) -> bool
    ensures { result ≡ meant.same_tables design.now other.now }
{
    same_signals(design.signals(), other.signals())
        && same_instances(
            design.groups(),
            other.groups(),
            design.instances(),
            other.instances(),
        )
}

// ---- asks

/// Whether a record fits the design at a point of a history.
fn fits_at(opening: &Design, entries: &[Entry], since: u64, content: &Record) -> bool
    ensures { result ≡ (nat_le since (length entries.now) && meant.fits (design_of opening.now (take since entries.now)) content.now) }
{
    if since > entries.len() as u64 {
        return false;
    }
    fits(design_at(opening, &entries[..since as usize]), content)
}

/// Whether a design has the opening design's tables, and the point is one of the history.
fn same_at(opening: &Design, entries: &[Entry], since: u64, design: &Design) -> bool
    ensures { result ≡ (nat_le since (length entries.now) && meant.same_tables design.now opening.now) }
{
    since <= entries.len() as u64 && same_tables(design, opening)
}

/// Whether an ask was made for this history: a record fits the design at its point, a text has the opening design's
/// tables.
pub(crate) fn suits(opening: &Design, entries: &[Entry], ask: &Ask) -> bool
    ensures { (result ≡ true) ↔ Suits opening.now entries.now ask.now }
{
    match ask {
        Ask::Admit { since, content } => fits_at(opening, entries, *since, content),
        Ask::Revise { since, revision } => same_at(opening, entries, *since, &revision.design),
        _ => true,
    }
}
