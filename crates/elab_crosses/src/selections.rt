//! Selections of the products of a cross.
ghost use Rattle.std.specs.Prelude.{◌≡◌, ◌≤◌, ◌++◌, ℕ, length, slice_get, IfOk, OnOk, None, Some};
ghost use Rattle.std.specs.Option.{option_copied};
ghost use Rattle.design_data.specs.declared.infos.BinRule.TheVariants.{Trans};
ghost use Rattle.cov_ground.specs.Limits.{most_points};
ghost use Rattle.cov_base.specs.Sets.{written, set_of};
ghost use Rattle.elab_base.specs.Gives.{Gives};
ghost use Rattle.elab_crosses.specs.Selections.{crossed, place_from, known_axis as axis_known, at_place, declaration, known_bin as bin_known, wanted_bin as bin_wanted, domain_in, set_listed as set_meant, wanted_numbers as numbers_wanted, meets as sets_meet, meets_item as item_meets, meets_last as last_meets, rule_meets as meets_rule, has_listed as listed_in, is_place as place_is, is_from as from_is, is_wanted as wanted_is, flag, flags as all_flags, bins_in as item_bins, from_in, chosen as chosen_bins, bins_selected, leaf, none_of, both_of, either_of, selection_of};

use const_eval::Scope;
use cov_base::{Memory, ValueSet};
use cov_tree::{Boxed, Elem, List, Name, Sel};
use cross_select::Select;
use design_data::{BinInfo, BinRule, ItemInfo};
use elab_base::{ElabFault, ElabKind};
use elab_values::{Domain, ItemDecls, numbers};
use std::alloc::Global;
use trans_seq::{Item, Seq};
use value_bins::Elems;

/// The place of a name among others.
fn place(names: &[Name], name: &Name) -> Option<u16>
    requires { length names.now ≤ most_points }
    ensures { result ≡ place_from 0 names.now name.now }
{
    let mut place = 0u16;
    for other in names {
        if other == name {
            return Some(place);
        }
        place += 1;
    }
    None
}

fn known_axis(axis: Option<u16>, at: u32) -> Result<u16, ElabFault>
    ensures { Gives result (axis_known axis at) }
{
    match axis {
        Some(axis) => Ok(axis),
        None => Err(ElabKind::NotCrossed.at(at)),
    }
}

fn declaration_of(decls: Option<&ItemDecls>, bin: &Name) -> Option<u32>
    ensures { result ≡ declaration (option_copied decls.entry) bin.now }
{
    match decls {
        Some(decls) => decls.names.get(bin.as_slice()).copied(),
        None => None,
    }
}

/// The place of the declaration of a bin, where a name stands.
fn wanted_bin(
    decls: Option<&ItemDecls>,
    bin: &Option<Name>,
    at: u32,
) -> Result<Option<u32>, ElabFault>
    ensures { Gives result (bin_wanted (option_copied decls.entry) bin.now at) }
{
    match bin {
        None => Ok(None),
        Some(bin) => match declaration_of(decls, bin) {
            Some(place) => Ok(Some(place)),
            None => Err(ElabKind::UnknownBin.at(at)),
        },
    }
}

fn domain_of(decls: Option<&ItemDecls>) -> Option<&Domain>
    ensures { option_copied result ≡ domain_in (option_copied decls.entry) }
{
    match decls {
        Some(decls) => decls.domain.as_ref(),
        None => None,
    }
}

/// The set of the numbers of a list.
fn set_listed(
    alloc: Global,
    scope: &Scope,
    domain: Option<&Domain>,
    elems: &[Elem],
    at: u32,
) -> Result<ValueSet, ElabFault>
    ensures { Gives result (set_meant scope.now (option_copied domain.entry) elems.now at) }
{
    match domain {
        None => Ok(ValueSet::new(alloc)),
        Some(domain) => {
            let numbers = numbers(alloc, scope, domain, false, elems, at)?;
            let set = ValueSet::from_ranges(alloc, numbers.as_slice())?;
            Ok(set)
        }
    }
}

/// The numbers of a list behind `intersect`, where one stands.
#[tactic(auto, unfolding(crate::specs::Selections::wanted_numbers))]
fn wanted_numbers(
    alloc: Global,
    scope: &Scope,
    domain: Option<&Domain>,
    elems: &Option<List<Elem>>,
    at: u32,
) -> Result<Option<ValueSet>, ElabFault>
    ensures { Gives result (numbers_wanted scope.now (option_copied domain.entry) elems.now at) }
{
    match elems {
        None => Ok(None),
        Some(elems) => {
            let set = set_listed(alloc, scope, domain, elems.as_slice(), at)?;
            Ok(Some(set))
        }
    }
}

/// Whether some number of the set is a listed one.
fn meets(alloc: Global, listed: &ValueSet, set: &ValueSet) -> Result<bool, Memory>
    ensures { IfOk result (λ meets. meets ≡ sets_meet listed.now set.now) }
{
    let numbers = Elems::of(Vec::from_slice(alloc, set.intervals())?);
    let common = numbers.within(alloc, listed)?;
    Ok(common.count() != 0)
}

fn meets_last(alloc: Global, listed: &ValueSet, seq: &Seq) -> Result<bool, Memory>
    ensures { IfOk result (λ meets. meets ≡ last_meets listed.now seq.now) }
{
    match seq.items.as_slice().last() {
        None => Ok(false),
        Some(item) => meets(alloc, listed, &item.set),
    }
}

fn some_meets(alloc: Global, listed: &ValueSet, seqs: &[Seq]) -> Result<bool, Memory>
    ensures { IfOk result (λ meets. meets ≡ meets_rule listed.now (Trans seqs.now)) }
{
    for seq in seqs {
        if meets_last(alloc, listed, seq)? {
            return Ok(true);
        }
    }
    Ok(false)
}

fn rule_meets(alloc: Global, listed: &ValueSet, rule: &BinRule) -> Result<bool, Memory>
    ensures { IfOk result (λ meets. meets ≡ meets_rule listed.now rule.now) }
{
    match rule {
        BinRule::Values(set) => meets(alloc, listed, set),
        BinRule::Trans(seqs) => some_meets(alloc, listed, seqs.as_slice()),
        _ => Ok(false),
    }
}

fn has_listed(alloc: Global, listed: &Option<ValueSet>, rule: &BinRule) -> Result<bool, Memory>
    ensures { IfOk result (λ has. has ≡ listed_in listed.now rule.now) }
{
    match listed {
        None => Ok(true),
        Some(listed) => rule_meets(alloc, listed, rule),
    }
}

/// Whether the bin at a place of its item is one of the wanted declaration.
fn is_wanted(wanted: Option<u32>, from: &[Option<u32>], k: usize) -> bool
    ensures { result ≡ wanted_is wanted from.now k }
{
    let Some(place) = wanted else {
        return true;
    };
    match from.get(k) {
        Some(Some(declared)) => *declared == place,
        _ => false,
    }
}

/// Adds whether the bin is chosen, if it is a coverage bin.
fn add_flag(
    alloc: Global,
    wanted: Option<u32>,
    listed: &Option<ValueSet>,
    from: &[Option<u32>],
    k: usize,
    bin: &BinInfo,
    flags: &mut List<bool>,
) -> Result<(), Memory>
    ensures { OnOk result (flags.new ≡ flags.old ++ flag wanted listed.now from.now k bin.now) }
{
    if bin.kind.is_coverage() {
        let is_chosen = is_wanted(wanted, from, k) && has_listed(alloc, listed, &bin.rule)?;
        flags.push(is_chosen)?;
    }
    Ok(())
}

/// For each coverage bin of an item whether it is chosen.
fn flags(
    alloc: Global,
    wanted: Option<u32>,
    listed: &Option<ValueSet>,
    from: &[Option<u32>],
    bins: &[BinInfo],
) -> Result<List<bool>, Memory>
    ensures { IfOk result (λ flags. flags ≡ all_flags wanted listed.now from.now 0 bins.now) }
{
    let mut flags = List::new(alloc);
    let mut k = 0;
    for bin in bins {
        add_flag(alloc, wanted, listed, from, k, bin, &mut flags)?;
        k += 1;
    }
    Ok(flags)
}

fn chosen(
    alloc: Global,
    item: Option<&ItemInfo>,
    decls: Option<&ItemDecls>,
    wanted: Option<u32>,
    listed: &Option<ValueSet>,
) -> Result<List<bool>, Memory>
    ensures { IfOk result
        (λ flags. flags ≡ chosen_bins (option_copied item.entry) (option_copied decls.entry) wanted listed.now) }
{
    let bins = match item {
        Some(item) => item.bins.as_slice(),
        None => &[],
    };
    let from = match decls {
        Some(decls) => decls.from.as_slice(),
        None => &[],
    };
    flags(alloc, wanted, listed, from, bins)
}

#[tactic(auto, unfolding(crate::specs::Selections::bins_selected))]
fn select_bins(
    alloc: Global,
    scope: &Scope,
    item: Option<&ItemInfo>,
    decls: Option<&ItemDecls>,
    axis: u16,
    bin: &Option<Name>,
    elems: &Option<List<Elem>>,
    at: u32,
) -> Result<Select, ElabFault>
    ensures { Gives result
        (bins_selected scope.now (option_copied item.entry) (option_copied decls.entry) axis bin.now elems.now at) }
{
    let wanted = wanted_bin(decls, bin, at)?;
    let listed = wanted_numbers(alloc, scope, domain_of(decls), elems, at)?;
    let chosen = chosen(alloc, item, decls, wanted, &listed)?;
    Ok(Select::Bins { axis, chosen })
}

fn at_index<'a, T>(all: &'a [T], axes: &[u32], axis: u16) -> Option<&'a T>
    ensures { option_copied result ≡ at_place all.now (slice_get axes.now axis) }
{
    match axes.get(axis as usize) {
        Some(index) => all.get(*index as usize),
        None => None,
    }
}

/// What a selection of a cross has to know of the crossed points: their names, their indexes among the items of the
/// instance, these items, and what these declare.
#[derive(Clone, Copy)]
pub struct Crossed<'a> {
    pub names: &'a [Name],
    pub axes: &'a [u32],
    pub items: &'a [ItemInfo],
    pub decls: &'a [ItemDecls],
}

#[tactic(auto, unfolding(crate::specs::Selections::leaf))]
fn select_leaf(
    alloc: Global,
    scope: &Scope,
    cross: Crossed,
    point: &Name,
    bin: &Option<Name>,
    elems: &Option<List<Elem>>,
    at: u32,
) -> Result<Select, ElabFault>
    requires { length cross.names.now ≤ most_points }
    ensures { Gives result
        (leaf scope.now (crossed cross.entry.names.now cross.entry.axes.now
        cross.entry.items.now cross.entry.decls.now) point.now bin.now elems.now at) }
{
    let axis = known_axis(place(cross.names, point), at)?;
    let item = at_index(cross.items, cross.axes, axis);
    let decls = at_index(cross.decls, cross.axes, axis);
    select_bins(alloc, scope, item, decls, axis, bin, elems, at)
}

/// What a selection selects (IEEE 1800-2017, 19.6.1). At the word `binsof`: NotCrossed where the cross doesn't have the
/// point, UnknownBin where the point doesn't declare the bin, then the faults of the list; from left to right.
pub fn selection(
    alloc: Global,
    scope: &Scope,
    cross: Crossed,
    sel: &Sel,
) -> Result<Select, ElabFault>
    requires { length cross.names.now ≤ most_points }
    ensures { Gives result
        (selection_of scope.now (crossed cross.entry.names.now cross.entry.axes.now
        cross.entry.items.now cross.entry.decls.now) sel.now) }
{
    match sel {
        Sel::BinsOf {
            point,
            bin,
            meets,
            at,
        } => select_leaf(alloc, scope, cross, point, bin, meets, *at),
        Sel::Not(inner) => {
            let inner = selection(alloc, scope, cross, inner.get())?;
            Ok(negated(alloc, inner)?)
        }
        Sel::And(left, right) => {
            let left = selection(alloc, scope, cross, left.get())?;
            let right = selection(alloc, scope, cross, right.get())?;
            Ok(both(alloc, left, right)?)
        }
        Sel::Or(left, right) => {
            let left = selection(alloc, scope, cross, left.get())?;
            let right = selection(alloc, scope, cross, right.get())?;
            Ok(either(alloc, left, right)?)
        }
    }
}

fn negated(alloc: Global, inner: Select) -> Result<Select, Memory>
    ensures { IfOk result (λ select. select ≡ none_of inner) }
{
    Ok(Select::Not(Boxed::of(alloc, inner)?))
}

fn both(alloc: Global, left: Select, right: Select) -> Result<Select, Memory>
    ensures { IfOk result (λ select. select ≡ both_of left right) }
{
    Ok(Select::And(Boxed::of(alloc, left)?, Boxed::of(alloc, right)?))
}

fn either(alloc: Global, left: Select, right: Select) -> Result<Select, Memory>
    ensures { IfOk result (λ select. select ≡ either_of left right) }
{
    Ok(Select::Or(Boxed::of(alloc, left)?, Boxed::of(alloc, right)?))
}
