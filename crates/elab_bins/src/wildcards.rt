//! Literals with digits x, z or `?` in bins of values.
ghost use Rattle.std.specs.Prelude.{◌≡◌, ◌^◌, ◌-◌, min, filter, length, IfOk};
ghost use Rattle.std.specs.List.{list_all, list_any};
ghost use Rattle.cov_base.specs.Sets.{is_in, span, written};
ghost use Rattle.design_data.specs.Bins.{is_coverage as is_coverage_kind};
ghost use Rattle.elab_base.specs.Gives.{Gives, GivesAs};
ghost use Rattle.elab_bins.specs.Wildcards.{is_one as is_one_bin, is_literal as is_literal_element, is_kept as is_bin_kept, patterns_in as patterns_meant, has_number as has_some_number, pattern_rule as rule_meant, element_count as count_meant, values_count as count_all, few_values, numbers_in as numbers_meant};

use crate::plans::Wanted;
use const_eval::Bound;
use cov_base::{Int, Memory, ValueSet};
use cov_ground::limits::MOST_VALUES;
use cov_tree::List;
use design_data::{BinKind, BinRule};
use elab_base::{ElabFault, ElabKind};
use elab_values::{Domain, Listed, numbers_listed};
use std::alloc::Global;
use value_bins::Elems;
use wildcard_bins::Pattern;
use wildcard_counts::count_in;

// ---- bins

fn is_one(wanted: Wanted) -> bool
    ensures { result ≡ is_one_bin wanted }
{
    match wanted {
        Wanted::One => true,
        Wanted::Each => false,
        Wanted::Spread { .. } => false,
    }
}

fn is_of_coverage(kind: BinKind) -> bool
    ensures { result ≡ is_coverage_kind kind }
{
    match kind {
        BinKind::CvgBin => true,
        _ => false,
    }
}

fn is_literal(listed: &Listed) -> bool
    ensures { result ≡ is_literal_element listed.now }
{
    match listed {
        Listed::Range { .. } => false,
        Listed::Agreeing { .. } => true,
    }
}

fn are_literals(elements: &[Listed]) -> bool
    ensures { result ≡ list_all is_literal_element elements.now }
{
    elements.iter().all(|listed| is_literal(listed))
}

/// Whether a bin of such a point keeps its patterns.
pub fn is_kept(
    patterns: bool,
    kind: BinKind,
    keep: &Option<Bound>,
    wanted: Wanted,
    elements: &[Listed],
) -> bool
    ensures { result ≡ is_bin_kept patterns kind keep.now wanted elements.now }
{
    if keep.is_some() {
        return false;
    }
    if !patterns {
        return false;
    }
    if !is_of_coverage(kind) {
        return false;
    }
    if !is_one(wanted) {
        return false;
    }
    are_literals(elements)
}

fn patterns_in(alloc: Global, elements: &[Listed]) -> Result<List<Pattern>, Memory>
    ensures { IfOk result (λ patterns. patterns ≡ patterns_meant elements.now) }
{
    let mut patterns = List::new(alloc);
    for listed in elements {
        if let Listed::Agreeing { pattern } = listed {
            patterns.push(*pattern)?;
        }
    }
    Ok(patterns)
}

/// Whether some number of the point agrees with the pattern.
#[tactic(auto, using(crate::proofs::Literals::some_agree))]
fn has_number(domain: &Domain, pattern: &Pattern) -> bool
    ensures { result ≡ has_some_number domain.now pattern.now }
{
    count_in(pattern, &domain.numbers) > 0
}

fn have_number(domain: &Domain, patterns: &[Pattern]) -> bool
    ensures { result ≡ list_any (has_some_number domain.now) patterns.now }
{
    for pattern in patterns {
        if has_number(domain, pattern) {
            return true;
        }
    }
    false
}

/// The rule of a bin that keeps the patterns of its elements.
pub fn pattern_rule(alloc: Global, domain: &Domain, elements: &[Listed]) -> Result<BinRule, Memory>
    ensures { IfOk result (λ rule. rule ≡ rule_meant domain.now (patterns_meant elements.now)) }
{
    let patterns = patterns_in(alloc, elements)?;
    if have_number(domain, patterns.as_slice()) {
        return Ok(BinRule::Patterns(patterns));
    }
    Ok(BinRule::Values(ValueSet::new(alloc)))
}

// ---- limits

/// How many numbers of the point a range has.
#[tactic(auto, using(elab_values::proofs::Widths::one_written))]
fn range_count(alloc: Global, domain: &Domain, low: Int, high: Int) -> Result<u128, Memory>
    ensures { IfOk result (λ count. count ≡ length (filter (is_in (written domain.now.numbers)) (span (low, high)))) }
{
    let mut ranges = Vec::new(alloc);
    ranges.push((low, high))?;
    let kept = Elems::of(ranges).within(alloc, &domain.numbers)?;
    Ok(kept.count())
}

/// How many numbers of the point an element lists.
fn element_count(alloc: Global, domain: &Domain, listed: &Listed) -> Result<u128, Memory>
    ensures { IfOk result (λ count. count ≡ count_meant domain.now listed.now) }
{
    match listed {
        Listed::Range { low, high } => range_count(alloc, domain, *low, *high),
        Listed::Agreeing { pattern } => Ok(count_in(pattern, &domain.numbers)),
    }
}

/// The count, `u64::MAX` at most.
fn cut(count: u128) -> u64
    ensures { result ≡ min count (2 ^ 64 - 1) }
{
    count.min(u64::MAX as u128) as u64
}

/// How many numbers of the point elements list, `u64::MAX` at most.
fn values_count(alloc: Global, domain: &Domain, elements: &[Listed]) -> Result<u64, Memory>
    ensures { IfOk result (λ count. count ≡ min (count_all domain.now elements.now) (2 ^ 64 - 1)) }
{
    let mut sum = 0u64;
    for listed in elements {
        sum = sum.saturating_add(cut(element_count(alloc, domain, listed)?));
    }
    Ok(sum)
}

#[tactic(auto, unfolding(crate::specs::Wildcards::few_values, elab_base::specs::Gives::needs))]
fn check_values(
    alloc: Global,
    domain: &Domain,
    elements: &[Listed],
    at: u32,
) -> Result<(), ElabFault>
    ensures { Gives result (few_values domain.now elements.now at) }
{
    if values_count(alloc, domain, elements)? > MOST_VALUES {
        return Err(ElabKind::TooManyValues.at(at));
    }
    Ok(())
}

/// The numbers that elements list, those of the point alone, of which a filter may look at some.
#[tactic(auto, unfolding(crate::specs::Wildcards::numbers_in))]
pub fn numbers_in(
    alloc: Global,
    domain: &Domain,
    keep: &Option<Bound>,
    elements: &[Listed],
    at: u32,
) -> Result<Elems, ElabFault>
    ensures { GivesAs written result (numbers_meant domain.now keep.now elements.now at) }
{
    match numbers_listed(alloc, domain, elements, at) {
        Ok(numbers) => Ok(numbers),
        Err(ElabFault::Memory) => Err(ElabFault::Memory),
        Err(ElabFault::Fault { kind, at: place }) => {
            if keep.is_some() {
                check_values(alloc, domain, elements, at)?;
            }
            Err(kind.at(place))
        }
    }
}
