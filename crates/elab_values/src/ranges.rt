//! The numbers of range lists.
ghost use Rattle.std.specs.Prelude.{◌≡◌, IfOk};
ghost use Rattle.cov_base.specs.Sets.{span, written};
ghost use Rattle.elab_base.specs.Gives.{Gives, Makes, GivesAs};
ghost use Rattle.elab_values.specs.Listed.{pattern_numbers, element_numbers, with_numbers, all_numbers, numbers_listed as numbers_meant, numbers_of};

use crate::domain::Domain;
use crate::elements::{Listed, elements_of};
use const_eval::Scope;
use cov_base::{Int, Memory, ValueSet};
use cov_tree::Elem;
use elab_base::{ElabFault, ElabKind};
use std::alloc::Global;
use value_bins::Elems;
use wildcard_bins::{Pattern, PatternFault};

/// The numbers that agree with a pattern.
#[tactic(auto, using(crate::proofs::Widths::not_too_wide), unfolding(crate::specs::Listed::pattern_numbers))]
fn pattern_set(alloc: Global, pattern: &Pattern, at: u32) -> Result<ValueSet, ElabFault>
    ensures { GivesAs written result (pattern_numbers pattern.now at) }
{
    match pattern.as_set(alloc) {
        Ok(set) => Ok(set),
        Err(PatternFault::TooManyRanges { .. }) => Err(ElabKind::TooManyRanges.at(at)),
        Err(PatternFault::Memory) => Err(ElabFault::Memory),
    }
}

/// One range.
#[tactic(auto, using(crate::proofs::Widths::one_written))]
fn one_range(alloc: Global, low: Int, high: Int) -> Result<Vec<(Int, Int)>, Memory>
    ensures { IfOk result (λ ranges. written ranges.items ≡ span (low, high)) }
{
    let mut ranges = Vec::new(alloc);
    ranges.push((low, high))?;
    Ok(ranges)
}

/// The numbers of an element, as ranges.
#[tactic(auto, unfolding(crate::specs::Listed::element_numbers))]
fn element_ranges(alloc: Global, listed: &Listed, at: u32) -> Result<Vec<(Int, Int)>, ElabFault>
    ensures { GivesAs (λ ranges. written ranges.items) result (element_numbers listed.now at) }
{
    match listed {
        Listed::Range { low, high } => Ok(one_range(alloc, *low, *high)?),
        Listed::Agreeing { pattern } => {
            let set = pattern_set(alloc, pattern, at)?;
            Ok(Vec::from_slice(alloc, set.intervals())?)
        }
    }
}

#[tactic(auto, using(crate::proofs::Widths::numbers_added), unfolding(crate::specs::Listed::with_numbers))]
fn add_numbers(
    alloc: Global,
    listed: &Listed,
    at: u32,
    ranges: &mut Vec<(Int, Int)>,
) -> Result<(), ElabFault>
    ensures { Makes result (written ranges.new.items) (with_numbers at listed.now (written ranges.old.items)) }
{
    let next = element_ranges(alloc, listed, at)?;
    ranges.extend_from_slice(next.as_slice())?;
    Ok(())
}

#[tactic(auto, unfolding(crate::specs::Listed::all_numbers))]
fn all_ranges(alloc: Global, elements: &[Listed], at: u32) -> Result<Vec<(Int, Int)>, ElabFault>
    ensures { GivesAs (λ ranges. written ranges.items) result (all_numbers elements.now at) }
{
    let mut ranges = Vec::new(alloc);
    for listed in elements {
        add_numbers(alloc, listed, at, &mut ranges)?;
    }
    Ok(ranges)
}

/// The numbers that computed elements list, those of the point alone. Where the set of a literal with digits x, z or `?`
/// has more than 65,536 intervals, the refusal is TooManyRanges at `at`.
#[tactic(auto, unfolding(crate::specs::Listed::numbers_listed))]
pub fn numbers_listed(
    alloc: Global,
    domain: &Domain,
    elements: &[Listed],
    at: u32,
) -> Result<Elems, ElabFault>
    ensures { GivesAs written result (numbers_meant domain.now elements.now at) }
{
    let ranges = all_ranges(alloc, elements, at)?;
    let kept = Elems::of(ranges).within(alloc, &domain.numbers)?;
    Ok(kept)
}

/// The numbers that a range list lists, those of the point alone, where nothing else is tested in between.
#[tactic(auto, unfolding(crate::specs::Listed::numbers_of))]
pub fn numbers(
    alloc: Global,
    scope: &Scope,
    domain: &Domain,
    wildcard: bool,
    elems: &[Elem],
    at: u32,
) -> Result<Elems, ElabFault>
    ensures { GivesAs written result (numbers_of scope.now domain.now wildcard elems.now at) }
{
    let elements = elements_of(alloc, scope, domain, wildcard, elems)?;
    let kept = numbers_listed(alloc, domain, elements.as_slice(), at)?;
    Ok(kept)
}
