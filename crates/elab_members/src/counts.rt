//! How much a design has so far.
ghost use Rattle.std.specs.Prelude.{◌≡◌, ◌+◌, ◌≤◌, IfOk};
ghost use Rattle.std.specs.List.{list_all};
ghost use Rattle.cov_ground.specs.Limits.{most_design_bins, most_design_ranges};
ghost use Rattle.elab_base.specs.Gives.{Gives, Makes};
ghost use Rattle.elab_members.specs.Counting.{is_short as is_set_short, are_sets_short as are_all_short, ranges_fit, bin_counted, bins_counted};

use cov_base::ValueSet;
use cov_ground::limits::{MOST_DESIGN_BINS, MOST_DESIGN_RANGES, MOST_RANGES};
use design_data::{BinRule, ranges_of};
use elab_base::{ElabFault, ElabKind};
use elab_values::Made;
use trans_seq::Seq;

/// How many items and bins a design has so far, and how many intervals its bins have.
#[derive(Clone, Copy, PartialEq, Eq)]
pub struct Counts {
    pub items: u32,
    pub bins: u32,
    pub ranges: u32,
}

// ---- the sets of a bin

fn is_short(set: &ValueSet) -> bool
    ensures { result ≡ is_set_short set.now }
{
    set.intervals().len() as u64 <= MOST_RANGES
}

fn are_items_short(seq: &Seq) -> bool
    ensures { result ≡ list_all (λ item. is_set_short item.set) seq.now.items }
{
    seq.items.as_slice().iter().all(|item| is_short(&item.set))
}

fn are_seqs_short(seqs: &[Seq]) -> bool
    ensures { result ≡ list_all (λ seq. list_all (λ item. is_set_short item.set) seq.items) seqs.now }
{
    seqs.iter().all(|seq| are_items_short(seq))
}

/// Whether no set of a bin has too many intervals.
fn are_sets_short(rule: &BinRule) -> bool
    ensures { result ≡ are_all_short rule.now }
{
    match rule {
        BinRule::Values(set) => is_short(set),
        BinRule::Trans(seqs) => are_seqs_short(seqs.as_slice()),
        BinRule::DefaultValues(set) => is_short(set),
        _ => true,
    }
}

// ---- counting

/// The intervals of a bin, for which the design has room.
#[tactic(auto, unfolding(crate::specs::Counting::ranges_fit, elab_base::specs::Gives::needs))]
fn fit(counts: &Counts, rule: &BinRule, at: u32) -> Result<u32, ElabFault>
    ensures gives { Gives result (ranges_fit counts.now rule.now at) }
    ensures bins { IfOk result (λ ranges. counts.now.bins + 1 ≤ most_design_bins) }
    ensures ranges { IfOk result (λ ranges. counts.now.ranges + ranges ≤ most_design_ranges) }
{
    let ranges = ranges_of(rule);
    if counts.bins >= MOST_DESIGN_BINS {
        return Err(ElabKind::DesignLimit.at(at));
    }
    if (counts.ranges as u64).saturating_add(ranges) > MOST_DESIGN_RANGES {
        return Err(ElabKind::DesignLimit.at(at));
    }
    Ok(ranges as u32)
}

#[tactic(auto, unfolding(crate::specs::Counting::bin_counted))]
fn count_bin(made: &Made, counts: &mut Counts) -> Result<(), ElabFault>
    ensures { Makes result counts.new (bin_counted made.now counts.old) }
{
    ElabKind::TooManyRanges.unless(are_sets_short(&made.bin.rule), made.at)?;
    let ranges = fit(counts, &made.bin.rule, made.at)?;
    counts.bins += 1;
    counts.ranges += ranges;
    Ok(())
}

/// Counts the bins of an item.
#[tactic(auto, unfolding(crate::specs::Counting::bins_counted))]
pub(crate) fn count_bins(bins: &[Made], counts: &mut Counts) -> Result<(), ElabFault>
    ensures { Makes result counts.new (bins_counted bins.now counts.old) }
{
    for made in bins {
        count_bin(made, counts)?;
    }
    Ok(())
}
