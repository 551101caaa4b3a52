//! The tables of two designs side by side.
ghost use Rattle.std.specs.Prelude.{◌≡◌, ◌≤◌, length, IfSome};
ghost use Rattle.cov_history.specs.Tables.{same_signal, same_instance, group_name, agree};
ghost use Rattle.session_table.specs.Contents.{apart, tables_apart};

use design_data::{Design, GroupInfo, InstInfo, Signal};

fn is_signal(signal: &Signal, other: &Signal) -> bool
    ensures { result ≡ same_signal signal.now other.now }
{
    signal.name == other.name && signal.width == other.width && signal.signed == other.signed
}

// The first place at which two lists of signals differ.
fn signals_apart(signals: &[Signal], others: &[Signal]) -> Option<usize>
    ensures place { result ≡ apart same_signal 0 signals.now others.now }
    ensures early { IfSome result (λ at. at ≤ length others.now) }
{
    let mut at = 0;
    let mut left = others;
    let mut rest = signals;
    while let Some((signal, later)) = rest.split_first() {
        let Some((other, more)) = left.split_first() else {
            return Some(at);
        };
        if !is_signal(signal, other) {
            return Some(at);
        }
        at += 1;
        left = more;
        rest = later;
    }
    if left.is_empty() { None } else { Some(at) }
}

fn group_of(groups: &[GroupInfo], group: u32) -> &[u8]
    ensures { result.now ≡ group_name groups.now group }
{
    match groups.get(group as usize) {
        Some(info) => info.name.as_slice(),
        None => &[],
    }
}

fn are_args(args: &[Signal], others: &[Signal]) -> bool
    ensures { result ≡ agree same_signal args.now others.now }
{
    match signals_apart(args, others) {
        None => true,
        Some(_) => false,
    }
}

fn is_instance(
    groups: &[GroupInfo],
    other_groups: &[GroupInfo],
    inst: &InstInfo,
    other: &InstInfo,
) -> bool
    ensures { result ≡ same_instance groups.now other_groups.now inst.now other.now }
{
    inst.name == other.name
        && group_of(groups, inst.group) == group_of(other_groups, other.group)
        && are_args(inst.args.as_slice(), other.args.as_slice())
}

// The first place at which two lists of instances differ.
fn instances_apart(
    groups: &[GroupInfo],
    other_groups: &[GroupInfo],
    instances: &[InstInfo],
    others: &[InstInfo],
) -> Option<usize>
    ensures place { result ≡ apart (same_instance groups.now other_groups.now) 0 instances.now others.now }
    ensures early { IfSome result (λ at. at ≤ length others.now) }
{
    let mut at = 0;
    let mut left = others;
    let mut rest = instances;
    while let Some((instance, later)) = rest.split_first() {
        let Some((other, more)) = left.split_first() else {
            return Some(at);
        };
        if !is_instance(groups, other_groups, instance, other) {
            return Some(at);
        }
        at += 1;
        left = more;
        rest = later;
    }
    if left.is_empty() { None } else { Some(at) }
}

/// The first place at which a new design's tables differ from the opening design's: that of a signal, or that of an
/// instance, counted on after the opening design's signals. It takes no memory.
#[tactic(auto, unfolding(crate::specs::Contents::tables_apart))]
pub(crate) fn tables_apart(opening: &Design, new: &Design) -> Option<u32>
    ensures { result ≡ tables_apart opening.now new.now }
{
    if let Some(at) = signals_apart(new.signals(), opening.signals()) {
        return Some(at as u32);
    }
    match instances_apart(
        new.groups(),
        opening.groups(),
        new.instances(),
        opening.instances(),
    ) {
        Some(at) => Some((opening.signals().len() + at) as u32),
        None => None,
    }
}
