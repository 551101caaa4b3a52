//! Whether parts are those of a design.
ghost use Rattle.std.specs.Prelude.{◌≡◌, ◌≤◌, ◌↔◌, IsTrue, IfOk, length};
ghost use Rattle.cov_ground.specs.Limits.{most_signals, most_instances, most_items, most_design_bins, most_design_ranges};
ghost use Rattle.design_data.specs.Bins.{items_in, bins_in, numbered_items, IsNumberedFrom};
ghost use Rattle.design_data.specs.Limits.{ranges_in, IsDesign};
ghost use Rattle.design_data.specs.Tested.{AreSignalsWide, AreInstances};

use crate::items::{are_instances, are_signals_wide};
use crate::numbers::{count_items, count_ranges, end_of_bins};
use crate::{GroupInfo, InstInfo, Signal};
use cov_ground::Memory;
use cov_ground::limits::{
    MOST_DESIGN_BINS, MOST_DESIGN_RANGES, MOST_INSTANCES, MOST_ITEMS, MOST_SIGNALS,
};
use std::alloc::Global;

/// Whether there are not too many signals, each of a width within its limits.
fn are_signals(signals: &[Signal]) -> bool
    ensures { IsTrue result ↔ ((length signals.now ≤ most_signals) × AreSignalsWide signals.now) }
{
    if signals.len() > MOST_SIGNALS {
        return false;
    }
    are_signals_wide(signals)
}

/// Whether there are not too many instances, and items in all of them.
fn are_few(instances: &[InstInfo]) -> bool
    ensures { IsTrue result ↔ ((length instances.now ≤ most_instances) × (items_in instances.now ≤ most_items)) }
{
    if instances.len() > MOST_INSTANCES {
        return false;
    }
    count_items(instances) <= MOST_ITEMS as u64
}

/// Whether the bins are numbered from 0 without a gap, and so many, not too many.
fn are_numbered(groups: &[GroupInfo], instances: &[InstInfo], bin_count: u32) -> bool
    ensures { IsTrue result ↔ (IsNumberedFrom 0 (numbered_items groups.now instances.now) × (bin_count ≡ bins_in (numbered_items groups.now instances.now)) × (bin_count ≤ most_design_bins)) }
{
    let Some(end) = end_of_bins(groups, instances) else {
        return false;
    };
    if u64::from(bin_count) != end {
        return false;
    }
    bin_count <= MOST_DESIGN_BINS
}

/// Whether the bins have not too many intervals together.
fn have_few_ranges(groups: &[GroupInfo], instances: &[InstInfo]) -> bool
    ensures { IsTrue result ↔ ranges_in (numbered_items groups.now instances.now) ≤ most_design_ranges }
{
    count_ranges(groups, instances) <= MOST_DESIGN_RANGES
}

/// Whether the parts are those of a design.
pub(crate) fn is_design(
    alloc: Global,
    signals: &[Signal],
    groups: &[GroupInfo],
    instances: &[InstInfo],
    bin_count: u32,
) -> Result<bool, Memory>
    ensures { IfOk result (λ yes. IsTrue yes ↔ IsDesign signals.now groups.now instances.now bin_count) }
{
    if !are_signals(signals) {
        return Ok(false);
    }
    if !are_few(instances) {
        return Ok(false);
    }
    if !are_numbered(groups, instances, bin_count) {
        return Ok(false);
    }
    if !have_few_ranges(groups, instances) {
        return Ok(false);
    }
    are_instances(alloc, groups.len(), instances)
}
