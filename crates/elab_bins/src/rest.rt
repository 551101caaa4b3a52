//! The bins of arrays of `default`.
ghost use Rattle.std.specs.Prelude.{◌≡◌, ◌+◌, ◌≤◌, length, map, nat_le, IfOk, OnOk};
ghost use Rattle.cov_ground.specs.Limits.{most_bins};
ghost use Rattle.cov_base.specs.Sets.{written, ascending};
ghost use Rattle.elab_base.specs.declared.fault.ElabKind.TheVariants as kinds;
ghost use Rattle.elab_base.specs.Gives.{Gives, Makes, needs};
ghost use Rattle.elab_bins.specs.Rest.{unlisted as unlisted_numbers, rest_bin as rest_meant, entry_bins as bins_meant, all_bins as all_meant, entry_counted, entries_counted, all_filled};

use crate::plans::{Head, bin_of, indexed_name};
use crate::walked::Entry;
use cov_base::{Int, Memory, ValueSet};
use cov_ground::limits::MOST_BINS;
use cov_tree::List;
use design_data::BinRule;
use elab_base::{ElabFault, ElabKind};
use elab_values::{Domain, Made};
use std::alloc::Global;
use value_bins::{Elems, singles};

/// The numbers of the point that are listed nowhere.
fn unlisted(alloc: Global, domain: &Domain, listed: &[(Int, Int)]) -> Result<ValueSet, Memory>
    ensures { IfOk result (λ rest. rest ≡ unlisted_numbers domain.now listed.now) }
{
    let listed = ValueSet::from_ranges(alloc, listed)?;
    domain.numbers.minus(alloc, &listed)
}

fn rest_bin(alloc: Global, head: &Head, value: Int) -> Result<Made, Memory>
    ensures { IfOk result (λ made. made ≡ rest_meant head.now value) }
{
    let text = value.get().to_string(alloc)?;
    let name = indexed_name(alloc, head.name.as_slice(), text.as_bytes())?;
    let set = ValueSet::from_ranges(alloc, &[(value, value)])?;
    bin_of(head, name, BinRule::DefaultValues(set))
}

fn rest_bins(alloc: Global, head: &Head, values: &[Int]) -> Result<List<Made>, Memory>
    ensures { IfOk result (λ bins. bins ≡ map (rest_meant head.now) values.now) }
{
    let mut bins = List::new(alloc);
    for value in values {
        bins.push(rest_bin(alloc, head, *value)?)?;
    }
    Ok(bins)
}

/// The numbers of a set, which are as many as an item may have bins.
fn numbers_of(alloc: Global, set: &ValueSet) -> Result<Vec<Int>, Memory>
    ensures { IfOk result (λ numbers. numbers.items ≡ ascending (written set.now)) }
{
    let elems = Elems::of(Vec::from_slice(alloc, set.intervals())?);
    match singles(alloc, &elems) {
        Ok(numbers) => Ok(numbers),
        // they are counted before
        Err(_) => Err(Memory),
    }
}

/// The bins of an entry.
fn entry_bins(alloc: Global, rest: &ValueSet, entry: Entry) -> Result<List<Made>, Memory>
    ensures { IfOk result (λ bins. bins ≡ bins_meant rest.now entry) }
{
    match entry {
        Entry::Bin(made) => {
            let mut bins = List::new(alloc);
            bins.push(made)?;
            Ok(bins)
        }
        Entry::Rest(head) => {
            let numbers = numbers_of(alloc, rest)?;
            rest_bins(alloc, &head, numbers.as_slice())
        }
    }
}

/// The bins of all entries.
fn all_bins(alloc: Global, rest: &ValueSet, entries: Vec<Entry>) -> Result<List<Made>, Memory>
    ensures { IfOk result (λ bins. bins ≡ all_meant rest.now entries.items) }
{
    let mut bins = List::new(alloc);
    for entry in entries {
        bins.append(entry_bins(alloc, rest, entry)?)?;
    }
    Ok(bins)
}

/// Whether there is room for so many bins more.
#[tactic(auto, unfolding(elab_base::specs::Gives::needs))]
fn check_rest(count: usize, more: u128, at: u32) -> Result<(), ElabFault>
    ensures gives { Gives result (needs (nat_le (count + more) most_bins) kinds.TooManyBins at) }
    ensures room { OnOk result (count + more ≤ most_bins) }
{
    if count > MOST_BINS || more > (MOST_BINS - count) as u128 {
        return Err(ElabKind::TooManyBins.at(at));
    }
    Ok(())
}

#[tactic(auto, unfolding(crate::specs::Rest::entry_counted))]
fn count_entry(entry: &Entry, more: u128, count: &mut usize) -> Result<(), ElabFault>
    ensures { Makes result count.new (entry_counted more entry.now count.old) }
{
    match entry {
        Entry::Bin(_) => Ok(()),
        Entry::Rest(head) => {
            check_rest(*count, more, head.at)?;
            *count += more as usize;
            Ok(())
        }
    }
}

/// Counts the bins of arrays of `default`.
#[tactic(auto, unfolding(crate::specs::Rest::entries_counted))]
fn count_entries(entries: &[Entry], more: u128, count: usize) -> Result<usize, ElabFault>
    ensures { Gives result (entries_counted more entries.now count) }
{
    let mut total = count;
    for entry in entries {
        count_entry(entry, more, &mut total)?;
    }
    Ok(total)
}

/// All bins of a point, those of arrays of `default` too.
#[tactic(auto, unfolding(crate::specs::Rest::all_filled))]
pub fn fill(
    alloc: Global,
    domain: &Domain,
    listed: &[(Int, Int)],
    entries: List<Entry>,
    count: usize,
) -> Result<List<Made>, ElabFault>
    ensures { Gives result (all_filled domain.now listed.now entries count) }
{
    let rest = unlisted(alloc, domain, listed)?;
    count_entries(entries.as_slice(), rest.count(), count)?;
    let bins = all_bins(alloc, &rest, entries.into_vec())?;
    Ok(bins)
}
