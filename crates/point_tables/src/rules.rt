//! The rules of the bins of values.
ghost use Rattle.std.specs.Prelude.{◌≡◌, ◌++◌, ◌∷◌, [], OnOk, if◌then◌else◌};
ghost use Rattle.design_data.specs.Limits.{IsPointRule};
ghost use Rattle.point_tables.specs.Tables.{IsPoint, has_value as has_value_of};

use cov_base::{Int, Memory};
use cov_counting::{in_patterns, is_listed};
use design_data::{BinInfo, BinRule, ItemInfo};
use trans_seq::is_inside;

/// Whether the rule of a bin of values is met.
pub(crate) fn has_value(item: &ItemInfo, bin: &BinInfo, value: &Option<Int>) -> bool
    requires point { IsPoint item.now }
    requires own { IsPointRule item.now bin.now.kind bin.now.rule }
    ensures { result ≡ has_value_of item.now.bins value.now bin.now.rule }
{
    match &bin.rule {
        BinRule::Values(set) => is_inside(set, *value),
        BinRule::Patterns(patterns) => in_patterns(patterns.as_slice(), *value),
        BinRule::Default => !is_listed(item.bins.as_slice(), value),
        BinRule::DefaultValues(set) => is_inside(set, *value),
        _ => false,
    }
}

/// Appends a place, if it is met.
#[inline(always)]
pub fn note(place: u32, is_met: bool, met: &mut Vec<u32>) -> Result<(), Memory>
    ensures { OnOk result (met.new.items ≡ (if is_met then met.old.items ++ place ∷ [] else met.old.items)) }
{
    if is_met {
        met.push(place)?;
    }
    Ok(())
}
