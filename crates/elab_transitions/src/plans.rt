//! Which bins a declaration makes, and its limits.
ghost use Rattle.std.specs.Prelude.{◌≡◌, ◌+◌, min, nat_le, ℕ, true, IfOk, IfErr};
ghost use Rattle.std.specs.List.{list_all, list_any};
ghost use Rattle.cov_ground.specs.Limits.{most_bins};
ghost use Rattle.trans_lists.specs.Lists.{goes_on as repeat_goes_on, listed_by_all};
ghost use Rattle.elab_base.specs.declared.fault.ElabKind.TheVariants as kinds;
ghost use Rattle.elab_base.specs.Gives.{Gives, Fails, needs};
ghost use Rattle.elab_transitions.specs.Bins.{is_removing as is_removing_word, any_goes_on as some_goes_on, is_bounded as is_bounded_by, is_within as is_within_limit, is_short as is_short_by, removing_after as removing_then, removing_in, bins_in, plan_in, fitted};

use crate::steps::ListedStep;
use cov_base::Int;
use cov_ground::limits::{MOST_BINS, MOST_CELLS};
use cov_tree::{BinsDecl, List, Word};
use elab_base::{ElabFault, ElabKind};
use elab_values::is_array;
use std::alloc::Global;
use trans_lists::{ExpandFault, expand_all};
use trans_seq::{Repeat, Seq, cells, cells_of_seqs};

/// What stands before a declaration of a point.
#[derive(Clone, Copy, PartialEq, Eq)]
pub struct Before {
    /// The place of the declaration among those of the point.
    pub declared: u32,
    /// How many bins the point has so far, before anything is removed.
    pub bins: usize,
    /// How many cells its ignored and illegal sequences have together.
    pub removing: u64,
}

/// The bins that a declaration makes.
#[derive(Drop)]
pub(crate) enum Plan {
    /// One of all sequences.
    One,
    /// One of each of these lists.
    Each { lists: List<List<Int>> },
}

pub(crate) fn is_removing(word: Word) -> bool
    ensures { result ≡ is_removing_word word }
{
    match word {
        Word::Bins => false,
        Word::Illegal => true,
        Word::Ignore => true,
    }
}

fn goes_on(step: &ListedStep) -> bool
    ensures { result ≡ repeat_goes_on step.now.repeat }
{
    match step.repeat {
        Repeat::Once => false,
        Repeat::Consec { .. } => false,
        Repeat::Goto { .. } => true,
        Repeat::NonConsec { .. } => true,
    }
}

fn any_goes_on(steps: &[ListedStep]) -> bool
    ensures { result ≡ some_goes_on steps.now }
{
    steps.iter().any(|step| goes_on(step))
}

fn some_endless(sequences: &[List<ListedStep>]) -> bool
    ensures { result ≡ list_any some_goes_on sequences.now }
{
    sequences.iter().any(|steps| any_goes_on(steps.as_slice()))
}

/// Whether an array has no lists of any length.
pub(crate) fn is_bounded(array: bool, sequences: &[List<ListedStep>]) -> bool
    ensures { result ≡ is_bounded_by array sequences.now }
{
    !(array && some_endless(sequences))
}

#[tactic(auto, unfolding(crate::specs::Bins::is_within))]
fn is_within(seq: &Seq) -> bool
    ensures { result ≡ is_within_limit seq.now }
{
    cells(seq) <= MOST_CELLS
}

fn are_within(seqs: &[Seq]) -> bool
    ensures { result ≡ list_all is_within_limit seqs.now }
{
    seqs.iter().all(|seq| is_within(seq))
}

fn is_short(array: bool, seqs: &[Seq]) -> bool
    ensures { result ≡ is_short_by array seqs.now }
{
    if array {
        are_within(seqs)
    } else {
        cells_of_seqs(seqs) <= MOST_CELLS
    }
}

/// The sum, or the greatest `u64` where it is larger.
fn removing_after(word: Word, before: u64, seqs: &[Seq]) -> u64
    ensures { result ≡ min (removing_then word before seqs.now) u64.MAX }
{
    if is_removing(word) {
        before.saturating_add(cells_of_seqs(seqs))
    } else {
        before
    }
}

/// How many cells take windows away with those of a declaration, which are few enough.
#[tactic(auto, unfolding(crate::specs::Bins::removing_in, elab_base::specs::Gives::needs))]
fn check_removing(word: Word, before: u64, seqs: &[Seq], at: u32) -> Result<u64, ElabFault>
    ensures { Gives result (removing_in word before seqs.now at) }
{
    let removing = removing_after(word, before, seqs);
    if removing > MOST_CELLS {
        return Err(ElabKind::TooLong.at(at));
    }
    Ok(removing)
}

/// The distinct lists of an array, of which there may be as many as an item may have bins.
#[tactic(auto, using(crate::proofs::TooMany::too_many), unfolding(crate::specs::Bins::plan_in))]
fn distinct(alloc: Global, seqs: &[Seq], at: u32) -> Result<List<List<Int>>, ElabFault>
    ensures lists { IfOk result (λ lists. lists ≡ listed_by_all seqs.now) }
    ensures fault { (have : ℕ) → IfErr result (λ e. Fails e (plan_in true seqs.now have at)) }
{
    match expand_all(alloc, seqs) {
        Ok(lists) => Ok(List::of(lists)),
        Err(ExpandFault::TooManyBins { .. }) => Err(ElabKind::TooManyBins.at(at)),
        // endless and long sequences are refused before
        Err(_) => Err(ElabFault::Memory),
    }
}

/// Whether an item that has so many bins may have so many more.
#[tactic(auto, unfolding(elab_base::specs::Gives::needs))]
pub(crate) fn check_room(have: usize, more: usize, at: u32) -> Result<(), ElabFault>
    ensures { Gives result (needs (nat_le (have + more) most_bins) kinds.TooManyBins at) }
{
    if have > MOST_BINS || more > MOST_BINS - have {
        return Err(ElabKind::TooManyBins.at(at));
    }
    Ok(())
}

/// The bins of a declaration, where its item, which has so many, has room for them.
#[tactic(auto, unfolding(crate::specs::Bins::plan_in))]
fn make_plan(
    alloc: Global,
    array: bool,
    seqs: &[Seq],
    have: usize,
    at: u32,
) -> Result<Plan, ElabFault>
    ensures { Gives result (plan_in array seqs.now have at) }
{
    if array {
        let lists = distinct(alloc, seqs, at)?;
        check_room(have, lists.as_slice().len(), at)?;
        Ok(Plan::Each { lists })
    } else {
        check_room(have, 1, at)?;
        Ok(Plan::One)
    }
}

/// The bins that a declaration's sequences make, and how many cells of the point take windows away then. In this order:
/// a bin has 120 cells at most, and so do the point's ignored
/// and illegal sequences together, or else `TooLong`; the point has room for the bins, or else `TooManyBins`.
#[tactic(auto, unfolding(crate::specs::Bins::fitted))]
pub(crate) fn fit(
    alloc: Global,
    decl: &BinsDecl,
    before: Before,
    seqs: &[Seq],
) -> Result<(Plan, u64), ElabFault>
    ensures { Gives result (fitted decl.now before seqs.now) }
{
    let array = is_array(&decl.size);
    ElabKind::TooLong.unless(is_short(array, seqs), decl.at)?;
    let removing = check_removing(decl.word, before.removing, seqs, decl.at)?;
    let plan = make_plan(alloc, array, seqs, before.bins, decl.at)?;
    Ok((plan, removing))
}
