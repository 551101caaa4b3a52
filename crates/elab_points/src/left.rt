//! What removal leaves of the bins of a point.
ghost use Rattle.std.specs.Prelude.{◌≡◌, ◌++◌, OnOk, IfOk};
ghost use Rattle.elab_base.specs.Gives.{Gives};
ghost use Rattle.elab_bins.specs.Left.{set_left as left_of_set, rule_left as left_of_rule, bin_left as left_of_bin, has_some as has_number, some_of, left_of, bins_left as left_of_bins, left_by, walked_left as left_of_walked, bins_of_point};
ghost use Rattle.elab_bins.specs.Automatic.{CanHaveBins};
ghost use Rattle.elab_bins.specs.Transitions.{transitions_left as left_of_transitions};

use crate::declared::walk_bins;
use crate::manner::manner_of;
use const_eval::Scope;
use cov_base::{Int, Memory, ValueSet};
use cov_tree::{BinsDecl, List, Name};
use design_data::{BinInfo, BinKind, BinRule};
use elab_base::ElabFault;
use elab_bins::{Removers, Seq, Walked, add_undeclared, fill, transitions_left};
use elab_values::{Domain, Made, PointBins, Settings};
use std::alloc::Global;
use std::mem;

/// What is left of a set, with no room to spare: a point may have very many of them.
#[tactic(auto, using(crate::proofs::Unremoved::none_to_lose, crate::proofs::Unremoved::none_removed))]
fn set_left(alloc: Global, removed: &ValueSet, set: ValueSet) -> Result<ValueSet, Memory>
    ensures { IfOk result (λ left. left ≡ left_of_set removed.now set) }
{
    if set.intervals().is_empty() {
        return Ok(set);
    }
    if removed.intervals().is_empty() {
        return Ok(set);
    }
    let left = set.minus(alloc, removed)?;
    left.copy(alloc)
}

#[tactic(auto, unfolding(elab_bins::specs::Left::rule_left))]
fn rule_left(alloc: Global, removed: &ValueSet, rule: BinRule) -> Result<BinRule, Memory>
    ensures { IfOk result (λ left. left ≡ left_of_rule removed.now rule) }
{
    match rule {
        BinRule::Values(set) => Ok(BinRule::Values(set_left(alloc, removed, set)?)),
        BinRule::Patterns(patterns) => Ok(BinRule::Patterns(patterns)),
        BinRule::Trans(seqs) => Ok(BinRule::Trans(seqs)),
        BinRule::Default => Ok(BinRule::Default),
        BinRule::DefaultValues(set) => Ok(BinRule::DefaultValues(set)),
        BinRule::DefaultSequence => Ok(BinRule::DefaultSequence),
        BinRule::Picked(select) => Ok(BinRule::Picked(select)),
        BinRule::Product(places) => Ok(BinRule::Product(places)),
    }
}

#[tactic(auto, unfolding(elab_bins::specs::Left::bin_left))]
fn bin_left(
    alloc: Global,
    all: &ValueSet,
    illegal: &ValueSet,
    bin: BinInfo,
) -> Result<BinInfo, Memory>
    ensures { IfOk result (λ left. left ≡ left_of_bin all.now illegal.now bin) }
{
    let mut bin = bin;
    let rule = mem::replace(&mut bin.rule, BinRule::Default);
    bin.rule = match bin.kind {
        BinKind::CvgBin => rule_left(alloc, all, rule)?,
        BinKind::IgnoreBin => rule_left(alloc, illegal, rule)?,
        BinKind::IllegalBin => rule,
        BinKind::DefaultBin => rule,
    };
    Ok(bin)
}

fn has_some(rule: &BinRule) -> bool
    ensures { result ≡ has_number rule.now }
{
    match rule {
        BinRule::Values(set) => !set.intervals().is_empty(),
        BinRule::DefaultValues(set) => !set.intervals().is_empty(),
        _ => true,
    }
}

/// Keeps a bin that has something left.
fn keep_some(made: Made, kept: &mut List<Made>) -> Result<(), Memory>
    ensures { OnOk result (kept.new ≡ kept.old ++ some_of made) }
{
    if has_some(&made.bin.rule) {
        kept.push(made)?;
    }
    Ok(())
}

/// Keeps what is left of a bin.
fn keep_left(
    alloc: Global,
    all: &ValueSet,
    illegal: &ValueSet,
    made: Made,
    kept: &mut List<Made>,
) -> Result<(), Memory>
    ensures { OnOk result (kept.new ≡ kept.old ++ left_of all.now illegal.now made) }
{
    let Made { bin, at, declared } = made;
    let bin = bin_left(alloc, all, illegal, bin)?;
    keep_some(Made { bin, at, declared }, kept)
}

fn bins_left(
    alloc: Global,
    all: &ValueSet,
    illegal: &ValueSet,
    bins: Vec<Made>,
) -> Result<List<Made>, Memory>
    ensures { IfOk result (λ kept. kept ≡ left_of_bins all.now illegal.now bins.items) }
{
    let mut kept = List::new(alloc);
    for made in bins {
        keep_left(alloc, all, illegal, made, &mut kept)?;
    }
    Ok(kept)
}

/// What removal leaves of bins, by the numbers of ignore bins and of illegal bins.
#[tactic(auto, unfolding(elab_bins::specs::Left::left_by))]
fn left(
    alloc: Global,
    ignored: List<(Int, Int)>,
    illegal: List<(Int, Int)>,
    bins: List<Made>,
) -> Result<List<Made>, Memory>
    ensures { IfOk result (λ left. left ≡ left_by ignored illegal bins) }
{
    let only_illegal = ValueSet::from_ranges(alloc, illegal.as_slice())?;
    let mut ranges = ignored;
    ranges.append(illegal)?;
    let all = ValueSet::from_ranges(alloc, ranges.as_slice())?;
    bins_left(alloc, &all, &only_illegal, bins.into_vec())
}

/// What is left of bins by their transitions, with what a point tells besides.
fn with_transitions(
    alloc: Global,
    decls: &[BinsDecl],
    names: List<Name>,
    ignored: List<Seq>,
    illegal: List<Seq>,
    bins: List<Made>,
) -> Result<PointBins, Memory>
    ensures { IfOk result (λ found. found ≡ record { bins = left_of_transitions decls.now ignored illegal bins; names = names; ignored = ignored; illegal = illegal }) }
{
    let removers = Removers::new(alloc, ignored, illegal)?;
    let bins = transitions_left(alloc, decls, &removers, bins.into_vec())?;
    let (ignored, illegal) = removers.into_seqs();
    Ok(PointBins {
        bins,
        names,
        ignored,
        illegal,
    })
}

/// What is left of all that is declared.
#[tactic(auto, unfolding(elab_bins::specs::Left::walked_left))]
fn walked_left(
    alloc: Global,
    domain: &Domain,
    decls: &[BinsDecl],
    walked: Walked,
) -> Result<PointBins, ElabFault>
    ensures { Gives result (left_of_walked domain.now decls.now walked) }
{
    let Walked {
        known: _,
        names,
        entries,
        count,
        listed,
        ignored,
        illegal,
        ignored_seqs,
        illegal_seqs,
        removing: _,
    } = walked;
    let all = fill(alloc, domain, listed.as_slice(), entries, count)?;
    let bins = left(alloc, ignored, illegal, all)?;
    let found = with_transitions(alloc, decls, names, ignored_seqs, illegal_seqs, bins)?;
    Ok(found)
}

/// The bins of a point of this name, which stands at `at`. Each of them has something left.
#[tactic(auto, unfolding(elab_bins::specs::Left::bins_of_point))]
pub fn point_bins(
    alloc: Global,
    scope: &Scope,
    domain: &Domain,
    name: &Name,
    settings: Settings,
    decls: &[BinsDecl],
    at: u32,
) -> Result<PointBins, ElabFault>
    requires { CanHaveBins settings }
    ensures { Gives result (bins_of_point scope.now domain.now name.now settings decls.now at) }
{
    let manner = manner_of(domain, settings, decls);
    let mut walked = walk_bins(alloc, scope, domain, name, manner, decls)?;
    add_undeclared(alloc, domain, settings, decls, at, &mut walked)?;
    let found = walked_left(alloc, domain, decls, walked)?;
    Ok(found)
}
