//! The bins of one declaration.
ghost use Rattle.std.specs.Prelude.{◌≡◌, ◌≤◌, ◌+◌, ℕ, IfOk, IfErr, map, filter, ◌∷◌, []};
ghost use Rattle.std.specs.Fmt.{decimal};
ghost use Rattle.cov_ground.specs.Limits.{most_bins};
ghost use Rattle.cov_base.specs.Sets.{written, set_of, ascending};
ghost use Rattle.elab_bins.specs.Parts.{parts as parts_of};
ghost use Rattle.elab_base.specs.Gives.{Gives, Fails};
ghost use Rattle.elab_bins.specs.declared.plans.Wanted.TheVariants.{Each};
ghost use Rattle.elab_bins.specs.Filter.{passes};
ghost use Rattle.elab_bins.specs.Made.{IsWanted, IsPlan, plan_bins, wanted_in, planned, indexed, value_bin, single, part_bins, set_filtered, parts_kept, bins_made};

use const_eval::{Bound, Scope};
use cov_base::{Int, Memory, ValueSet};
use cov_tree::{List, Size};
use design_data::BinRule;
use elab_base::{ElabFault, ElabKind, number_in};
use elab_bins::{Head, Plan, Wanted, bin_of, check_room, indexed_name, passing};
use elab_values::Made;
use std::alloc::Global;
use value_bins::{Elems, SpreadFault, singles, spread};

/// What a declaration asks for.
#[tactic(auto, unfolding(elab_bins::specs::Made::wanted_in))]
pub(crate) fn size_of(
    alloc: Global,
    scope: &Scope,
    size: &Size,
    at: u32,
) -> Result<Wanted, ElabFault>
    ensures gives { Gives result (wanted_in scope.now size.now at) }
    ensures wanted { IfOk result IsWanted }
{
    match size {
        Size::Scalar => Ok(Wanted::One),
        Size::Open => Ok(Wanted::Each),
        Size::Fixed(bins) => {
            let bins = number_in(alloc, scope, bins)?;
            ElabKind::ZeroBins.unless(1 <= bins.get(), at)?;
            Ok(Wanted::Spread {
                bins: bins.get() as u64,
            })
        }
    }
}

/// The distinct listed numbers, ascending, of which there may be as many as an item may have bins.
#[tactic(auto, using(crate::proofs::Singles::too_many), unfolding(elab_bins::specs::Made::planned))]
fn distinct(alloc: Global, elems: &Elems, at: u32) -> Result<Vec<Int>, ElabFault>
    ensures numbers { IfOk result (λ numbers. numbers.items ≡ ascending (written elems.now)) }
    ensures fault { (have : ℕ) → IfErr result (λ e. Fails e (planned have Each (written elems.now) at)) }
{
    match singles(alloc, elems) {
        Ok(numbers) => Ok(numbers),
        Err(SpreadFault::TooManyBins { .. }) => Err(ElabKind::TooManyBins.at(at)),
        Err(SpreadFault::ZeroBins) => Err(ElabFault::Memory),
        Err(SpreadFault::Memory) => Err(ElabFault::Memory),
    }
}

/// The bins that a declaration makes, where its item, which has so many, has room for them.
#[tactic(auto, unfolding(elab_bins::specs::Made::planned))]
pub(crate) fn make_plan(
    alloc: Global,
    have: usize,
    wanted: Wanted,
    elems: &Elems,
    at: u32,
) -> Result<Plan, ElabFault>
    requires { IsWanted wanted }
    ensures gives { Gives result (planned have wanted (written elems.now) at) }
    ensures plan { IfOk result IsPlan }
    ensures room { IfOk result (λ plan. have + plan_bins plan ≤ most_bins) }
{
    match wanted {
        Wanted::One => {
            check_room(have, 1, at)?;
            Ok(Plan::One)
        }
        Wanted::Each => {
            let numbers = distinct(alloc, elems, at)?;
            check_room(have, numbers.len() as u64, at)?;
            Ok(Plan::Each {
                numbers: List::of(numbers),
            })
        }
        Wanted::Spread { bins } => {
            check_room(have, bins, at)?;
            Ok(Plan::Spread { bins: bins as u32 })
        }
    }
}

fn single_bin(alloc: Global, head: &Head, value: Int) -> Result<Made, Memory>
    ensures { IfOk result (λ made. made ≡ single head.now value) }
{
    let text = value.get().to_string(alloc)?;
    let name = indexed_name(alloc, head.name.as_slice(), text.as_bytes())?;
    let made = ValueSet::from_ranges(alloc, &[(value, value)])?;
    // a copy has no room to spare, and there may be very many of them
    let set = made.copy(alloc)?;
    bin_of(head, name, BinRule::Values(set))
}

fn single_bins(alloc: Global, head: &Head, values: &[Int]) -> Result<List<Made>, Memory>
    ensures { IfOk result (λ bins. bins ≡ map (single head.now) values.now) }
{
    let mut bins = List::new(alloc);
    for value in values {
        bins.push(single_bin(alloc, head, *value)?)?;
    }
    Ok(bins)
}

fn part_bin(alloc: Global, head: &Head, place: usize, set: ValueSet) -> Result<Made, Memory>
    ensures { IfOk result (λ made. made ≡ value_bin head.now (indexed head.now.name (decimal place)) set) }
{
    let text = place.to_string(alloc)?;
    let name = indexed_name(alloc, head.name.as_slice(), text.as_bytes())?;
    bin_of(head, name, BinRule::Values(set))
}

fn parts(alloc: Global, head: &Head, sets: Vec<ValueSet>) -> Result<List<Made>, Memory>
    ensures { IfOk result (λ bins. bins ≡ part_bins head.now 0 sets.items) }
{
    let mut bins = List::new(alloc);
    for set in sets {
        let place = bins.as_slice().len();
        bins.push(part_bin(alloc, head, place, set)?)?;
    }
    Ok(bins)
}

/// The sets of so many bins, over which the listed numbers are spread.
fn spread_over(alloc: Global, elems: &Elems, bins: u32) -> Result<Vec<ValueSet>, Memory>
    requires some { 1 ≤ bins }
    requires most { bins ≤ most_bins }
    ensures { IfOk result (λ sets. sets.items ≡ map set_of (parts_of (written elems.now) bins)) }
{
    match spread(alloc, elems, bins) {
        Ok(sets) => Ok(sets),
        // so many bins are neither none nor too many
        Err(_) => Err(Memory),
    }
}

/// The numbers of a set that pass a filter.
fn filtered_set(alloc: Global, term: &Bound, set: ValueSet) -> Result<ValueSet, Memory>
    ensures { IfOk result (λ left. left ≡ set_filtered term.now set) }
{
    let elems = Elems::of(Vec::from_slice(alloc, set.intervals())?);
    match passing(alloc, term, &elems) {
        Ok(kept) => ValueSet::from_ranges(alloc, kept.as_slice()),
        // a part lists no more than its declaration
        Err(_) => Err(Memory),
    }
}

/// Each of the sets, with the numbers that pass a filter.
fn filtered_sets(alloc: Global, term: &Bound, sets: Vec<ValueSet>) -> Result<Vec<ValueSet>, Memory>
    ensures { IfOk result (λ left. left.items ≡ map (set_filtered term.now) sets.items) }
{
    let mut left = Vec::new(alloc);
    for set in sets {
        left.push(filtered_set(alloc, term, set)?)?;
    }
    Ok(left)
}

/// The sets of so many bins, over which listed numbers are spread before a filter is applied to each.
fn distributed_sets(
    alloc: Global,
    term: &Bound,
    bins: u32,
    numbers: &Elems,
) -> Result<Vec<ValueSet>, Memory>
    requires some { 1 ≤ bins }
    requires most { bins ≤ most_bins }
    ensures { IfOk result (λ sets. sets.items ≡ map set_of (map (filter (passes term.now)) (parts_of (written numbers.now) bins))) }
{
    let sets = spread_over(alloc, numbers, bins)?;
    let left = filtered_sets(alloc, term, sets)?;
    Ok(left)
}

/// The sets of so many bins, over which listed numbers are spread, of which a filter keeps some.
fn kept_sets(
    alloc: Global,
    distribute: bool,
    keep: &Option<Bound>,
    bins: u32,
    numbers: &Elems,
    kept: &Elems,
) -> Result<Vec<ValueSet>, Memory>
    requires some { 1 ≤ bins }
    requires most { bins ≤ most_bins }
    ensures { IfOk result (λ sets. sets.items ≡ map set_of (parts_kept distribute keep.now bins (written numbers.now) (written kept.now))) }
{
    match keep {
        None => spread_over(alloc, kept, bins),
        Some(term) => {
            if !distribute {
                return spread_over(alloc, kept, bins);
            }
            distributed_sets(alloc, term, bins, numbers)
        }
    }
}

/// The bin of all listed numbers.
fn whole_bin(alloc: Global, head: &Head, elems: &Elems) -> Result<List<Made>, Memory>
    ensures { IfOk result (λ bins. bins ≡ value_bin head.now head.now.name (set_of (written elems.now)) ∷ []) }
{
    let set = ValueSet::from_ranges(alloc, elems.as_slice())?;
    let name = head.name.share()?;
    let mut bins = List::new(alloc);
    bins.push(bin_of(head, name, BinRule::Values(set))?)?;
    Ok(bins)
}

/// The bins of a declaration that lists `numbers`, of which a filter keeps `kept`.
#[tactic(auto, unfolding(elab_bins::specs::Made::bins_made))]
pub(crate) fn bins_of(
    alloc: Global,
    distribute: bool,
    keep: &Option<Bound>,
    plan: &Plan,
    head: &Head,
    numbers: &Elems,
    kept: &Elems,
) -> Result<List<Made>, Memory>
    requires { IsPlan plan.now }
    ensures { IfOk result (λ bins. bins ≡ bins_made distribute keep.now plan.now head.now (written numbers.now) (written kept.now)) }
{
    match plan {
        Plan::One => whole_bin(alloc, head, kept),
        Plan::Each { numbers } => single_bins(alloc, head, numbers.as_slice()),
        Plan::Spread { bins } => {
            let sets = kept_sets(alloc, distribute, keep, *bins, numbers, kept)?;
            parts(alloc, head, sets)
        }
    }
}
