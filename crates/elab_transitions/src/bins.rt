//! The bins of one declaration.
ghost use Rattle.std.specs.Prelude.{◌≡◌, IfOk, map};
ghost use Rattle.elab_base.specs.Gives.{Gives};
ghost use Rattle.elab_transitions.specs.Bins.{default_kind as default_meant, made_bin, list_bin as bin_of_list, bins_made as bins_of_plan, removed_by, trans_made, seqs_binned, steps_binned, trans_bins_of, default_bin_of};

use crate::lists::shown_list;
use crate::plans::{Before, Plan, check_room, fit, is_bounded, is_removing};
use crate::seqs::seqs_in;
use crate::shown::{Values, no_values};
use crate::steps::{ListedStep, listed_sequences};
use const_eval::{Bound, Scope};
use cov_base::{Int, Memory};
use cov_tree::{BinsDecl, List, Name, Shared, Step, Word};
use design_data::{BinInfo, BinKind, BinRule};
use elab_base::{ElabFault, ElabKind, share_guard, shared_guard_in};
use elab_values::{Domain, Made, is_array, kind_of};
use std::alloc::Global;
use trans_seq::{Seq, append_copies};

/// The transition bins of a declaration.
#[derive(Drop)]
pub struct TransBins {
    /// Its bins, in order.
    pub bins: List<Made>,
    /// The sequences that it takes away from other bins of the point, as they are declared: none under the word `bins`.
    pub removed: List<Seq>,
    /// How many cells the point's ignored and illegal sequences have with these.
    pub removing: u64,
}

fn default_kind(word: Word) -> BinKind
    ensures { result ≡ default_meant word }
{
    match word {
        Word::Bins => BinKind::DefaultBin,
        Word::Illegal => BinKind::IllegalBin,
        Word::Ignore => BinKind::IgnoreBin,
    }
}

fn bin_of(
    name: Name,
    kind: BinKind,
    rule: BinRule,
    guard: Option<Shared<Bound>>,
    at: u32,
    declared: u32,
) -> Made
    ensures { result ≡ made_bin name kind rule guard at declared }
{
    Made {
        bin: BinInfo {
            name,
            kind,
            rule,
            guard,
        },
        at,
        declared: Some(declared),
    }
}

fn list_bin(
    alloc: Global,
    decl: &BinsDecl,
    declared: u32,
    guard: &Option<Shared<Bound>>,
    list: &[Int],
    values: &mut Values,
) -> Result<Made, Memory>
    ensures { IfOk result (λ made. made ≡ bin_of_list decl.now declared guard.now list.now) }
{
    let (name, seq) = shown_list(alloc, &decl.name, list, values)?;
    let mut seqs = List::new(alloc);
    seqs.push(seq)?;
    let guard = share_guard(guard)?;
    let rule = BinRule::Trans(seqs);
    Ok(bin_of(name, kind_of(decl.word), rule, guard, decl.at, declared))
}

/// The bins of the lists. A list is let go as soon as its bin is made, which takes its memory.
fn list_bins(
    alloc: Global,
    decl: &BinsDecl,
    declared: u32,
    guard: &Option<Shared<Bound>>,
    lists: List<List<Int>>,
) -> Result<List<Made>, Memory>
    ensures { IfOk result (λ bins. bins ≡ map (bin_of_list decl.now declared guard.now) lists) }
{
    let mut bins = List::new(alloc);
    let mut values = no_values(alloc);
    for list in lists.into_vec() {
        bins.push(list_bin(alloc, decl, declared, guard, list.as_slice(), &mut values)?)?;
    }
    Ok(bins)
}

#[tactic(auto, unfolding(crate::specs::Bins::bins_made))]
fn scalar_bins(
    alloc: Global,
    decl: &BinsDecl,
    declared: u32,
    guard: Option<Shared<Bound>>,
    seqs: List<Seq>,
) -> Result<List<Made>, Memory>
    ensures { IfOk result (λ bins. bins ≡ bins_of_plan decl.now declared Plan.One guard seqs) }
{
    let name = decl.name.share()?;
    let rule = BinRule::Trans(seqs);
    let mut bins = List::new(alloc);
    bins.push(bin_of(name, kind_of(decl.word), rule, guard, decl.at, declared))?;
    Ok(bins)
}

#[tactic(auto, unfolding(crate::specs::Bins::bins_made))]
fn bins_made(
    alloc: Global,
    decl: &BinsDecl,
    declared: u32,
    plan: Plan,
    guard: Option<Shared<Bound>>,
    seqs: List<Seq>,
) -> Result<List<Made>, Memory>
    ensures { IfOk result (λ bins. bins ≡ bins_of_plan decl.now declared plan guard seqs) }
{
    match plan {
        Plan::One => scalar_bins(alloc, decl, declared, guard, seqs),
        Plan::Each { lists } => list_bins(alloc, decl, declared, &guard, lists),
    }
}

fn copied(alloc: Global, seqs: &[Seq]) -> Result<List<Seq>, Memory>
    ensures { IfOk result (λ copies. copies ≡ seqs.now) }
{
    let mut copies = Vec::new(alloc);
    append_copies(alloc, seqs, &mut copies)?;
    Ok(List::of(copies))
}

fn removed_seqs(alloc: Global, word: Word, seqs: &[Seq]) -> Result<List<Seq>, Memory>
    ensures { IfOk result (λ removed. removed ≡ removed_by word seqs.now) }
{
    if is_removing(word) {
        copied(alloc, seqs)
    } else {
        Ok(List::new(alloc))
    }
}

#[tactic(auto, unfolding(crate::specs::Bins::trans_made))]
fn make_bins(
    alloc: Global,
    decl: &BinsDecl,
    declared: u32,
    plan: Plan,
    removing: u64,
    guard: Option<Shared<Bound>>,
    seqs: List<Seq>,
) -> Result<TransBins, Memory>
    ensures { IfOk result (λ made. made ≡ trans_made decl.now declared plan removing guard seqs) }
{
    let removed = removed_seqs(alloc, decl.word, seqs.as_slice())?;
    let bins = bins_made(alloc, decl, declared, plan, guard, seqs)?;
    Ok(TransBins {
        bins,
        removed,
        removing,
    })
}

#[tactic(auto, unfolding(crate::specs::Bins::seqs_binned))]
fn bin_seqs(
    alloc: Global,
    decl: &BinsDecl,
    before: Before,
    guard: Option<Shared<Bound>>,
    seqs: List<Seq>,
) -> Result<TransBins, ElabFault>
    ensures { Gives result (seqs_binned decl.now before guard seqs) }
{
    let (plan, removing) = fit(alloc, decl, before, seqs.as_slice())?;
    let made = make_bins(alloc, decl, before.declared, plan, removing, guard, seqs)?;
    Ok(made)
}

#[tactic(auto, unfolding(crate::specs::Bins::steps_binned))]
fn bin_steps(
    alloc: Global,
    scope: &Scope,
    domain: &Domain,
    decl: &BinsDecl,
    before: Before,
    sequences: &[List<ListedStep>],
) -> Result<TransBins, ElabFault>
    ensures { Gives result (steps_binned scope.now domain.now decl.now before sequences.now) }
{
    let guard = shared_guard_in(alloc, scope, &decl.guard)?;
    let array = is_array(&decl.size);
    ElabKind::Unbounded.unless(is_bounded(array, sequences), decl.at)?;
    let seqs = seqs_in(alloc, domain, sequences, decl.at)?;
    let made = bin_seqs(alloc, decl, before, guard, seqs)?;
    Ok(made)
}

/// The transition bins of a declaration with these sequences: one that has them all, or under `[]` one of each list, in
/// order, a list that was there before being left out. Its steps are computed first, then its guard. Then follow, at the
/// declaration: `Unbounded`, `TooManyRanges` of literals with digits x, z or `?`, `TooLong` and `TooManyBins`.
#[tactic(auto, unfolding(crate::specs::Bins::trans_bins_of))]
pub fn trans_bins(
    alloc: Global,
    scope: &Scope,
    domain: &Domain,
    decl: &BinsDecl,
    sequences: &[List<Step>],
    before: Before,
) -> Result<TransBins, ElabFault>
    ensures { Gives result (trans_bins_of scope.now domain.now decl.now sequences.now before) }
{
    let listed = listed_sequences(alloc, scope, domain, decl.wildcard, sequences)?;
    let made = bin_steps(alloc, scope, domain, decl, before, listed.as_slice())?;
    Ok(made)
}

/// The bin of `default sequence`: it is no coverage bin, and under `illegal_bins` an
/// illegal one.
#[tactic(auto, unfolding(crate::specs::Bins::default_bin_of))]
pub fn default_bin(
    alloc: Global,
    scope: &Scope,
    decl: &BinsDecl,
    before: Before,
) -> Result<Made, ElabFault>
    ensures { Gives result (default_bin_of scope.now decl.now before) }
{
    let guard = shared_guard_in(alloc, scope, &decl.guard)?;
    check_room(before.bins, 1, decl.at)?;
    let name = decl.name.share()?;
    let kind = default_kind(decl.word);
    let rule = BinRule::DefaultSequence;
    Ok(bin_of(name, kind, rule, guard, decl.at, before.declared))
}
