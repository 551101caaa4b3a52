//! What is asked of a bin that a sample meets.
ghost use Rattle.std.specs.Prelude.{◌≡◌, ◌≤◌, ◌<◌, ◌+◌, length, slice_get, All, Some, IfOk, IfSome, IsTrue, if◌then◌else◌};
ghost use Rattle.cov_base.specs.Limits.{most_bins};
ghost use Rattle.design_data.specs.declared.infos.BinInfo.{BinInfo as Bin};
ghost use Rattle.point_tables.specs.Tables.{IsGuardAt, IsPlain, AreEntriesOf, AreEntries};

use crate::tables::Entry;
use const_eval::Bound;
use cov_base::Memory;
use design_data::BinInfo;
use std::alloc::Global;

/// Whether the bin has the guard.
fn has_guard(bin: &BinInfo, guard: &Bound) -> bool
    ensures { IsTrue result → bin.now.guard ≡ Some guard.now }
{
    match &bin.guard {
        None => false,
        Some(own) => own.get().is_same(guard),
    }
}

/// The place of a bin with the guard of the bin at this place: the one before, if the bin there has it.
fn place_of(bins: &[BinInfo], before: &Option<u32>, guard: &Bound, place: u32) -> u32
    requires { IfSome before.now (λ earlier. earlier < length bins.now) }
    ensures { (bin : Bin) → slice_get bins.now place ≡ Some bin → bin.guard ≡ Some guard.now
        → IsGuardAt bins.now (Some result) (Some guard.now) }
{
    let Some(earlier) = before else {
        return place;
    };
    if has_guard(&bins[*earlier as usize], guard) {
        return *earlier;
    }
    place
}

/// The place of a bin with the guard of the bin at this place, if it has one: `before`, where the bin there has it. So bins
/// that stand together and share a guard name one place.
fn guard_place(bins: &[BinInfo], before: &Option<u32>, bin: &BinInfo, place: u32) -> Option<u32>
    requires { IfSome before.now (λ earlier. earlier < length bins.now) }
    ensures { slice_get bins.now place ≡ Some bin.now → IsGuardAt bins.now result bin.now.guard }
{
    match &bin.guard {
        None => None,
        Some(guard) => Some(place_of(bins, before, guard.get(), place)),
    }
}

/// How many coverage bins there are with one more bin.
fn counted(number: u32, covers: bool) -> u32
    requires { number < most_bins }
    ensures { result ≡ (if covers then number + 1 else number) }
{
    if covers { number + 1 } else { number }
}

/// Whether the bin counts for coverage and has no guard.
fn is_plain(bin: &BinInfo) -> bool
    ensures { IsTrue result → IsPlain bin.now }
{
    match bin.guard {
        None => bin.kind.is_coverage(),
        Some(_) => false,
    }
}

/// Whether each bin counts for coverage and has no guard.
fn are_plain(bins: &[BinInfo]) -> bool
    ensures { IsTrue result → All IsPlain bins.now }
{
    for bin in bins {
        if !is_plain(bin) {
            return false;
        }
    }
    true
}

/// What is asked of each bin, where that isn't the same of all.
pub fn entries_of(alloc: Global, bins: &[BinInfo]) -> Result<Vec<Entry>, Memory>
    requires { length bins.now ≤ most_bins }
    ensures { IfOk result (λ entries. AreEntries bins.now entries.items) }
{
    if are_plain(bins) {
        return Ok(Vec::new(alloc));
    }
    let entries = entry_list(alloc, bins)?;
    Ok(entries)
}

/// What is asked of each bin.
fn entry_list(alloc: Global, bins: &[BinInfo]) -> Result<Vec<Entry>, Memory>
    requires { length bins.now ≤ most_bins }
    ensures { IfOk result (λ entries. AreEntriesOf bins.now (length bins.now) entries.items) }
{
    let mut entries = Vec::new(alloc);
    let mut number = 0;
    let mut guard = None;
    for (place, bin) in bins.iter().enumerate() {
        let covers = bin.kind.is_coverage();
        guard = guard_place(bins, &guard, bin, place as u32);
        entries.push(Entry {
            covers,
            number,
            guard,
        })?;
        number = counted(number, covers);
    }
    Ok(entries)
}
