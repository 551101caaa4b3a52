//! Whether the tables of one item serve another.
ghost use Rattle.std.specs.Prelude.{◌≡◌, IsTrue};
ghost use Rattle.sampler_plans.specs.Alike.{AreAlike};

use const_eval::Bound;
use cov_base::ValueSet;
use cov_tree::{Name, Shared};
use cross_select::Select;
use design_data::{BinInfo, BinKind, BinRule, ItemInfo};
use trans_seq::Seq;
use wildcard_bins::Pattern;

fn same_name(first: &Name, second: &Name) -> bool
    ensures { IsTrue result → first.now ≡ second.now }
{
    *first == *second
}

fn same_kind(first: BinKind, second: BinKind) -> bool
    ensures { IsTrue result → first ≡ second }
{
    first == second
}

fn same_guard(first: &Option<Shared<Bound>>, second: &Option<Shared<Bound>>) -> bool
    ensures { IsTrue result → first.now ≡ second.now }
{
    match first {
        None => match second {
            None => true,
            Some(_) => false,
        },
        Some(guard) => match second {
            None => false,
            Some(other) => guard.get().is_same(other.get()),
        },
    }
}

fn same_values(first: &ValueSet, second: &ValueSet) -> bool
    ensures { IsTrue result → first.now ≡ second.now }
{
    first == second
}

pub(crate) fn same_numbers(first: &[u32], second: &[u32]) -> bool
    ensures { IsTrue result → first.now ≡ second.now }
{
    first == second
}

fn same_choice(first: &[bool], second: &[bool]) -> bool
    ensures { IsTrue result → first.now ≡ second.now }
{
    first == second
}

fn same_pattern(first: &Pattern, second: &Pattern) -> bool
    ensures { IsTrue result → first.now ≡ second.now }
{
    first.width == second.width
        && first.signed == second.signed
        && first.bits == second.bits
        && first.free == second.free
}

fn same_patterns(first: &[Pattern], second: &[Pattern]) -> bool
    ensures { IsTrue result → first.now ≡ second.now }
{
    if first.len() != second.len() {
        return false;
    }
    for (k, pattern) in first.iter().enumerate() {
        if !same_pattern(pattern, &second[k]) {
            return false;
        }
    }
    true
}

fn same_seqs(first: &[Seq], second: &[Seq]) -> bool
    ensures { IsTrue result → first.now ≡ second.now }
{
    if first.len() != second.len() {
        return false;
    }
    for (k, seq) in first.iter().enumerate() {
        if !seq.is_same(&second[k]) {
            return false;
        }
    }
    true
}

fn same_select(first: &Select, second: &Select) -> bool
    ensures { IsTrue result → first.now ≡ second.now }
{
    match first {
        Select::Bins { axis, chosen } => match second {
            Select::Bins {
                axis: other,
                chosen: others,
            } => *axis == *other && same_choice(chosen.as_slice(), others.as_slice()),
            _ => false,
        },
        Select::Not(inner) => match second {
            Select::Not(other) => same_select(inner.get(), other.get()),
            _ => false,
        },
        Select::And(left, right) => match second {
            Select::And(other, last) => {
                same_select(left.get(), other.get()) && same_select(right.get(), last.get())
            }
            _ => false,
        },
        Select::Or(left, right) => match second {
            Select::Or(other, last) => {
                same_select(left.get(), other.get()) && same_select(right.get(), last.get())
            }
            _ => false,
        },
    }
}

fn same_rule(first: &BinRule, second: &BinRule) -> bool
    ensures { IsTrue result → first.now ≡ second.now }
{
    match first {
        BinRule::Values(set) => match second {
            BinRule::Values(other) => same_values(set, other),
            _ => false,
        },
        BinRule::Patterns(patterns) => match second {
            BinRule::Patterns(others) => same_patterns(patterns.as_slice(), others.as_slice()),
            _ => false,
        },
        BinRule::Trans(seqs) => match second {
            BinRule::Trans(others) => same_seqs(seqs.as_slice(), others.as_slice()),
            _ => false,
        },
        BinRule::Default => match second {
            BinRule::Default => true,
            _ => false,
        },
        BinRule::DefaultValues(set) => match second {
            BinRule::DefaultValues(other) => same_values(set, other),
            _ => false,
        },
        BinRule::DefaultSequence => match second {
            BinRule::DefaultSequence => true,
            _ => false,
        },
        BinRule::Picked(select) => match second {
            BinRule::Picked(other) => same_select(select, other),
            _ => false,
        },
        BinRule::Product(members) => match second {
            BinRule::Product(others) => same_numbers(members.as_slice(), others.as_slice()),
            _ => false,
        },
    }
}

fn same_bin(first: &BinInfo, second: &BinInfo) -> bool
    ensures { IsTrue result → first.now ≡ second.now }
{
    same_kind(first.kind, second.kind)
        && same_rule(&first.rule, &second.rule)
        && same_guard(&first.guard, &second.guard)
        && same_name(&first.name, &second.name)
}

fn same_bins(first: &[BinInfo], second: &[BinInfo]) -> bool
    ensures { IsTrue result → first.now ≡ second.now }
{
    if first.len() != second.len() {
        return false;
    }
    for (k, bin) in first.iter().enumerate() {
        if !same_bin(bin, &second[k]) {
            return false;
        }
    }
    true
}

/// Whether two items have the same bins and the same sequences that take windows away.
pub(crate) fn are_alike(first: &ItemInfo, second: &ItemInfo) -> bool
    ensures { IsTrue result → AreAlike first.now second.now }
{
    same_bins(first.bins.as_slice(), second.bins.as_slice())
        && same_seqs(first.ignored.as_slice(), second.ignored.as_slice())
        && same_seqs(first.illegal.as_slice(), second.illegal.as_slice())
}
