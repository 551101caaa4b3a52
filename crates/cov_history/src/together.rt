//! The counts of all tests of a history, by definition.
ghost use Rattle.std.specs.Prelude.{◌≡◌, ℕ, ◌+◌, ◌*◌, [], ◌<◌, ◌≤◌, ◌^◌, length, slice_index, IfOk};
ghost use Rattle.cov_history.specs.History.{contents};
ghost use Rattle.cov_history.specs.Tallies.{tally as tally_of};
ghost use Rattle.cov_history.specs.Sums.{plus, with_change, all_hits};

use crate::facts::count;
use crate::{Entry, Event};
use cov_counting::tally_by_definition;
use cov_ground::Memory;
use cov_tree::List;
use design_data::Design;
use record_codec::Record;
use std::alloc::Global;

/// The counts of a record.
pub fn counts_of(alloc: Global, design: &Design, content: &Record) -> Result<List<u64>, Memory>
    ensures { IfOk result (λ counts. counts ≡ tally_of design.now content.now) }
{
    let counts = tally_by_definition(alloc, design, content)?;
    Ok(counts)
}

/// The sums of two lists, place by place.
fn added(alloc: Global, sums: &[u64], counts: &[u64]) -> Result<Vec<u64>, Memory>
    requires few { length sums.now < 2 ^ 32 }
    requires room { (bin : ℕ) → slice_index sums.now bin + slice_index counts.now bin < 2 ^ 64 }
    ensures { IfOk result (λ both. both.items ≡ plus sums.now counts.now) }
{
    let mut both = Vec::new(alloc);
    for bin in 0..sums.len() as u32 {
        both.push(count(sums, bin) + count(counts, bin))?;
    }
    Ok(both)
}

/// A count of 0 for each bin.
fn none(alloc: Global, design: &Design) -> Result<Vec<u64>, Memory>
    ensures { IfOk result (λ counts. counts.items ≡ all_hits design.now []) }
{
    let mut counts = Vec::new(alloc);
    for _ in 0..design.bin_count() {
        counts.push(0)?;
    }
    Ok(counts)
}

/// The counts with those of a change.
fn counts_after(
    alloc: Global,
    design: &Design,
    counts: Vec<u64>,
    event: &Event,
) -> Result<Vec<u64>, Memory>
    requires few { length counts.items < 2 ^ 32 }
    requires room { (bin : ℕ) → slice_index counts.items bin < 2 ^ 63 }
    ensures { IfOk result (λ after. after.items ≡ with_change design.now counts.items event.now) }
{
    match event {
        Event::Admit(content) => with_record(alloc, design, counts.as_slice(), content),
        _ => Ok(counts),
    }
}

/// The counts with those of a record.
fn with_record(
    alloc: Global,
    design: &Design,
    counts: &[u64],
    content: &Record,
) -> Result<Vec<u64>, Memory>
    requires few { length counts.now < 2 ^ 32 }
    requires room { (bin : ℕ) → slice_index counts.now bin < 2 ^ 63 }
    ensures { IfOk result (λ after. after.items ≡ plus counts.now (tally_of design.now content.now)) }
{
    let own = counts_of(alloc, design, content)?;
    let both = added(alloc, counts, own.as_slice())?;
    Ok(both)
}

/// The counts of all tests of a history under a design.
pub(crate) fn counts_at(
    alloc: Global,
    design: &Design,
    entries: &[Entry],
) -> Result<Vec<u64>, Memory>
    requires { length entries.now < 2 ^ 32 }
    ensures { IfOk result (λ counts. counts.items ≡ all_hits design.now (contents entries.now)) }
{
    let mut counts = none(alloc, design)?;
    for entry in entries {
        let after = counts_after(alloc, design, counts, &entry.event)?;
        counts = after;
    }
    Ok(counts)
}
