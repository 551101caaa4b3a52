//! How the index of a point's bins of values is made.
ghost use Rattle.std.specs.Prelude.{◌≡◌, ℤ, pos, ◌+ℤ◌, ◌≤ℤ◌, ℕ, ◌<◌, ◌^◌, ◌||◌, ◌≤◌, not, List, length, Some, None, IsTrue, IfOk, IfSome};
ghost use Rattle.cov_base.specs.Sets.{written, is_in};
ghost use Rattle.design_data.specs.Laws.{lists as lists_of};
ghost use Rattle.point_tables.specs.Tables.{IsPoint, IsLookupOf, has_value, places_from};
ghost use Rattle.cov_base.specs.Limits.{most_bins};
ghost use Rattle.design_data.specs.declared.infos.BinInfo.{BinInfo as Bin};
ghost use Rattle.design_data.specs.declared.infos.BinRule.TheVariants.{Patterns};
ghost use Rattle.point_tables.specs.Keys.{AreListed, AreUnlisted, IsSetOf, HasOneMore, AreSetsOf};

use crate::keys::{keys_of, least_of};
use crate::patterns::{add_patterns, have_few_ranges, set_of_patterns};
use crate::rules::note;
use crate::tables::Lookup;
use cov_base::{Int, Memory, ValueSet};
use design_data::{BinInfo, BinRule, ItemInfo};
use std::alloc::Global;
use value_index::{Index, Set};
use wildcard_bins::Pattern;

/// The most intervals that copies for several bins `default` may have.
const MOST_COPIES: usize = 0x10_0000;

/// Appends the ranges of what a bin lists. False for patterns with too many.
fn add_listed(alloc: Global, bin: &BinInfo, ranges: &mut Vec<(Int, Int)>) -> Result<bool, Memory>
    ensures { IfOk result (λ known. IsTrue known → (v : ℤ) → is_in (written ranges.new.items) v
        ≡ (is_in (written ranges.old.items) v || lists_of (Some v) bin.now.rule)) }
{
    match &bin.rule {
        BinRule::Patterns(patterns) => {
            let known = add_patterns(alloc, patterns.as_slice(), ranges)?;
            Ok(known)
        }
        BinRule::Values(set) => {
            ranges.extend_from_slice(set.intervals())?;
            Ok(true)
        }
        _ => Ok(true),
    }
}

/// The ranges of what the bins list. None where one has patterns with too many.
fn listed_of(alloc: Global, bins: &[BinInfo]) -> Result<Option<Vec<(Int, Int)>>, Memory>
    ensures { IfOk result (λ made. IfSome made (λ ranges. AreListed bins.now ranges.items)) }
{
    let mut ranges = Vec::new(alloc);
    for bin in bins {
        if !add_listed(alloc, bin, &mut ranges)? {
            return Ok(None);
        }
    }
    Ok(Some(ranges))
}

/// The numbers from the least value on, 2^64 of them, without those in the ranges.
fn without(alloc: Global, least: Int, ranges: &[(Int, Int)]) -> Result<ValueSet, Memory>
    requires { least ≤ℤ pos 0 }
    ensures { IfOk result (λ rest. (key : ℕ) → key < 2 ^ 64 → is_in (written rest) (least +ℤ pos key)
        ≡ not (is_in (written ranges.now) (least +ℤ pos key))) }
{
    let listed = ValueSet::from_ranges(alloc, ranges)?;
    let last = least.plus(0xffff_ffff_ffff_ffff);
    let whole = ValueSet::from_ranges(alloc, &[(least, last)])?;
    let rest = whole.minus(alloc, &listed)?;
    Ok(rest)
}

/// Whether a bin of this rule is met where the value is Unknown, which no bin lists.
#[tactic(auto, using(crate::proofs::Keyed::never_listed))]
fn is_default(rule: &BinRule) -> bool
    ensures { (bins : List Bin) → result ≡ has_value bins None rule.now }
{
    match rule {
        BinRule::Default => true,
        _ => false,
    }
}

/// The places of the bins that are met where the value is Unknown: those of the bins `default`.
fn unknown_of(alloc: Global, bins: &[BinInfo]) -> Result<Vec<u32>, Memory>
    requires { length bins.now ≤ most_bins }
    ensures { IfOk result (λ places.
        places.items ≡ places_from (λ bin. has_value bins.now None bin.rule) 0 bins.now) }
{
    let mut places = Vec::new(alloc);
    for (place, bin) in bins.iter().enumerate() {
        note(place as u32, is_default(&bin.rule), &mut places)?;
    }
    Ok(places)
}

/// The values that no bin lists, if there are bins `default`, so many. None where they can't be told, and where the
/// intervals, copied for each such bin, would be many.
fn unlisted_of(
    alloc: Global,
    item: &ItemInfo,
    least: Int,
    defaults: usize,
) -> Result<Option<ValueSet>, Memory>
    requires { least ≤ℤ pos 0 }
    ensures { IfOk result (λ made. IfSome made (AreUnlisted item.now.bins least)) }
{
    if defaults == 0 {
        return Ok(None);
    }
    let Some(ranges) = listed_of(alloc, item.bins.as_slice())? else {
        return Ok(None);
    };
    let rest = without(alloc, least, ranges.as_slice())?;
    if defaults > 1 && defaults.saturating_mul(rest.intervals().len()) > MOST_COPIES {
        return Ok(None);
    }
    Ok(Some(rest))
}

/// The keys of the numbers that agree with one of the patterns. None where these have too many ranges.
fn keys_of_patterns(alloc: Global, least: Int, patterns: &[Pattern]) -> Result<Option<Set>, Memory>
    ensures { (bins : List Bin) → IfOk result (λ made. IfSome made (IsSetOf bins least (Patterns patterns.now))) }
{
    match set_of_patterns(alloc, patterns)? {
        Some(set) => keys_of(alloc, least, &set),
        None => Ok(None),
    }
}

/// The keys of the values that a bin has. None for patterns with too many ranges, for `default` where the values that no
/// bin lists aren't known, and where some value has no key.
fn set_of(
    alloc: Global,
    item: &ItemInfo,
    least: Int,
    rest: &Option<ValueSet>,
    bin: &BinInfo,
) -> Result<Option<Set>, Memory>
    requires { IfSome rest.now (AreUnlisted item.now.bins least) }
    ensures { IfOk result (λ made. IfSome made (IsSetOf item.now.bins least bin.now.rule)) }
{
    match &bin.rule {
        BinRule::Patterns(patterns) => keys_of_patterns(alloc, least, patterns.as_slice()),
        BinRule::Values(set) => keys_of(alloc, least, set),
        BinRule::DefaultValues(set) => keys_of(alloc, least, set),
        BinRule::Default => match rest {
            Some(rest) => keys_of(alloc, least, rest),
            None => Ok(None),
        },
        _ => Ok(Some(Set::of(Vec::new(alloc)))),
    }
}

/// Appends the set of a bin, and answers whether it has one.
fn add_set(
    alloc: Global,
    item: &ItemInfo,
    least: Int,
    rest: &Option<ValueSet>,
    bin: &BinInfo,
    sets: &mut Vec<Set>,
) -> Result<bool, Memory>
    requires { IfSome rest.now (AreUnlisted item.now.bins least) }
    ensures { IfOk result (λ added. IsTrue added
        → HasOneMore item.now.bins least bin.now.rule sets.old.items sets.new.items) }
{
    let Some(set) = set_of(alloc, item, least, rest, bin)? else {
        return Ok(false);
    };
    sets.push(set)?;
    Ok(true)
}

/// The sets of all bins. None where a bin has none.
fn sets_of(
    alloc: Global,
    item: &ItemInfo,
    least: Int,
    rest: &Option<ValueSet>,
) -> Result<Option<Vec<Set>>, Memory>
    requires { IfSome rest.now (AreUnlisted item.now.bins least) }
    ensures { IfOk result (λ made. IfSome made (λ sets.
        AreSetsOf item.now.bins least item.now.bins sets.items)) }
{
    let mut sets = Vec::new(alloc);
    for bin in item.bins.as_slice() {
        if !add_set(alloc, item, least, rest, bin, &mut sets)? {
            return Ok(None);
        }
    }
    Ok(Some(sets))
}

/// The index of a point's bins of values. None where the patterns of bins have many ranges, where there are several bins
/// `default` of many ranges, and where the bins overlap so much that an index would be large.
pub fn lookup_of(alloc: Global, item: &ItemInfo) -> Result<Option<Lookup>, Memory>
    requires { IsPoint item.now }
    ensures { IfOk result (λ made. IfSome made (IsLookupOf item.now.bins)) }
{
    if !have_few_ranges(item.bins.as_slice()) {
        return Ok(None);
    }
    let least = least_of(item);
    let unknown = unknown_of(alloc, item.bins.as_slice())?;
    let rest = unlisted_of(alloc, item, least, unknown.len())?;
    let Some(sets) = sets_of(alloc, item, least, &rest)? else {
        return Ok(None);
    };
    let most = 4 * item.bins.as_slice().len() as u32 + 64;
    let Some(index) = Index::new(alloc, sets.as_slice(), most)? else {
        return Ok(None);
    };
    Ok(Some(Lookup {
        least,
        index,
        unknown,
    }))
}
