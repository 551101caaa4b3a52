//! The counts of the bins that a sample meets.
ghost use Rattle.std.specs.Prelude.{◌≡◌, ◌≢◌, ℕ, ◌+◌, ◌<◌, ◌≤◌, ◌∷◌, ◌++◌, [], length, slice_get, All, AllPairs, Option, Some, IfSome, OnOk, if◌then◌else◌};
ghost use Rattle.const_eval.specs.Terms.{Term};
ghost use Rattle.cov_counting.specs.Hits.{holds as holds_at};
ghost use Rattle.design_data.specs.declared.infos.BinInfo.{BinInfo as Bin};
ghost use Rattle.point_tables.specs.Tables.{AreEntries, IsEntry, IsGuardAt};
ghost use Rattle.point_sampler.specs.Points.{IsOutside};
ghost use Rattle.point_sampler.specs.Met.{PlaceTaken, AllTaken, IsAnswered};

use cov_base::{Int, Memory};
use cov_counting::bin_holds;
use design_data::{BinInfo, ItemInfo};
use point_tables::Entry;

/// A guard that was asked at a sample, and its answer.
#[derive(Clone, Copy, Drop)]
pub struct Asked {
    /// The place of a bin with the guard.
    place: u32,
    holds: bool,
}

/// Whether the guard of the bin at this place holds, by the answer that was given last, where that guard was asked.
#[inline(always)]
fn holds_at_place(
    bins: &[BinInfo],
    place: u32,
    env: &[Option<Int>],
    asked: &mut Option<Asked>,
) -> bool
    requires place { place < length bins.now }
    requires asked { IfSome asked.old (IsAnswered bins.now env.now) }
    ensures holds { (bin : Bin) → slice_get bins.now place ≡ Some bin → result ≡ holds_at bin.guard env.now }
    ensures asked { IfSome asked.new (IsAnswered bins.now env.now) }
{
    if let Some(last) = asked {
        if last.place == place {
            return last.holds;
        }
    }
    let holds = bin_holds(&bins[place as usize].guard, env);
    *asked = Some(Asked { place, holds });
    holds
}

/// Whether the guard of the bin at this place holds; None stands for no guard.
#[inline(always)]
fn holds_of(
    bins: &[BinInfo],
    place: &Option<u32>,
    env: &[Option<Int>],
    asked: &mut Option<Asked>,
) -> bool
    requires guard { (guard : Option Term) × IsGuardAt bins.now place.now guard }
    requires asked { IfSome asked.old (IsAnswered bins.now env.now) }
    ensures holds { (guard : Option Term) → IsGuardAt bins.now place.now guard → result ≡ holds_at guard env.now }
    ensures asked { IfSome asked.new (IsAnswered bins.now env.now) }
{
    match place {
        None => true,
        Some(place) => holds_at_place(bins, *place, env, asked),
    }
}

/// Appends the number of a coverage bin.
#[inline(always)]
fn add_number(entry: &Entry, row: &mut Vec<u32>) -> Result<(), Memory>
    ensures { OnOk result (row.new.items ≡ (if entry.now.covers then row.old.items ++ entry.now.number ∷ [] else row.old.items)) }
{
    if entry.covers {
        row.push(entry.number)?;
    }
    Ok(())
}

/// What is asked of the bin at this place. Where there are no entries, each bin counts for coverage and has no guard.
#[inline(always)]
fn entry_at(entries: &[Entry], bins: &[BinInfo], place: u32) -> Entry
    requires entries { AreEntries bins.now entries.now }
    requires place { place < length bins.now }
    ensures { (bin : Bin) → slice_get bins.now place ≡ Some bin → IsEntry bins.now place bin result }
{
    let _ = bins;
    if entries.is_empty() {
        return Entry {
            covers: true,
            number: place,
            guard: None,
        };
    }
    entries[place as usize]
}

/// Counts the bin at this place, whose rule is met, if its guard holds.
#[inline(always)]
fn count_one(
    entries: &[Entry],
    item: &ItemInfo,
    env: &[Option<Int>],
    place: u32,
    asked: &mut Option<Asked>,
    counts: &mut [u64],
    row: &mut Vec<u32>,
) -> Result<(), Memory>
    requires entries { AreEntries item.now.bins entries.now }
    requires place { place < length item.now.bins }
    requires asked { IfSome asked.old (IsAnswered item.now.bins env.now) }
    requires counts { item.now.first_bin + length item.now.bins ≤ length counts.old }
    ensures taken { OnOk result (PlaceTaken item.now env.now place counts.old row.old.items counts.new row.new.items) }
    ensures asked { OnOk result (IfSome asked.new (IsAnswered item.now.bins env.now)) }
{
    let bins = item.bins.as_slice();
    let entry = entry_at(entries, bins, place);
    if !holds_of(bins, &entry.guard, env, asked) {
        return Ok(());
    }
    let number = item.first_bin as usize + place as usize;
    counts[number] = counts[number].saturating_add(1);
    add_number(&entry, row)?;
    Ok(())
}

/// Counts the bins at these places, whose rules are met, where their guards hold, and puts the numbers of the coverage
/// bins among them into the row. A guard of bins that stand together is asked once.
#[inline(always)]
fn count_each(
    entries: &[Entry],
    item: &ItemInfo,
    env: &[Option<Int>],
    met: &[u32],
    counts: &mut [u64],
    row: &mut Vec<u32>,
) -> Result<(), Memory>
    requires entries { AreEntries item.now.bins entries.now }
    requires within { All (λ place. place < length item.now.bins) met.now }
    requires once { AllPairs (λ a b. a ≢ b) met.now }
    requires counts { item.now.first_bin + length item.now.bins ≤ length counts.old }
    requires none { row.old.items ≡ [] }
    ensures { OnOk result (AllTaken item.now env.now met.now counts.old counts.new row.new.items) }
{
    let mut asked = None;
    for place in met {
        count_one(entries, item, env, *place, &mut asked, counts, row)?;
    }
    Ok(())
}

/// The same, for bins that differ in kind or guard.
#[inline(never)]
fn count_apart(
    entries: &[Entry],
    item: &ItemInfo,
    env: &[Option<Int>],
    met: &[u32],
    counts: &mut [u64],
    row: &mut Vec<u32>,
) -> Result<(), Memory>
    requires entries { AreEntries item.now.bins entries.now }
    requires within { All (λ place. place < length item.now.bins) met.now }
    requires once { AllPairs (λ a b. a ≢ b) met.now }
    requires counts { item.now.first_bin + length item.now.bins ≤ length counts.old }
    requires none { row.old.items ≡ [] }
    ensures { OnOk result (AllTaken item.now env.now met.now counts.old counts.new row.new.items) }
{
    count_each(entries, item, env, met, counts, row)?;
    Ok(())
}

/// The same. It is quick where one bin is met.
#[inline(always)]
fn count_few(
    entries: &[Entry],
    item: &ItemInfo,
    env: &[Option<Int>],
    met: &[u32],
    counts: &mut [u64],
    row: &mut Vec<u32>,
) -> Result<(), Memory>
    requires entries { AreEntries item.now.bins entries.now }
    requires within { All (λ place. place < length item.now.bins) met.now }
    requires once { AllPairs (λ a b. a ≢ b) met.now }
    requires counts { item.now.first_bin + length item.now.bins ≤ length counts.old }
    requires none { row.old.items ≡ [] }
    ensures { OnOk result (AllTaken item.now env.now met.now counts.old counts.new row.new.items) }
{
    if let [place] = met {
        count_one(entries, item, env, *place, &mut None, counts, row)?;
        return Ok(());
    }
    count_each(entries, item, env, met, counts, row)?;
    Ok(())
}

/// The same. It is quick where each bin counts for coverage and has no guard.
#[inline(always)]
pub(crate) fn count_met(
    entries: &[Entry],
    item: &ItemInfo,
    env: &[Option<Int>],
    met: &[u32],
    counts: &mut [u64],
    row: &mut Vec<u32>,
) -> Result<(), Memory>
    requires entries { AreEntries item.now.bins entries.now }
    requires within { All (λ place. place < length item.now.bins) met.now }
    requires once { AllPairs (λ a b. a ≢ b) met.now }
    requires counts { item.now.first_bin + length item.now.bins ≤ length counts.old }
    requires none { row.old.items ≡ [] }
    ensures { OnOk result (AllTaken item.now env.now met.now counts.old counts.new row.new.items) }
{
    if entries.is_empty() {
        count_few(entries, item, env, met, counts, row)?;
        return Ok(());
    }
    count_apart(entries, item, env, met, counts, row)?;
    Ok(())
}
