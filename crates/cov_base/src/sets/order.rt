//! Ranges in order of their low ends.
ghost use Rattle.std.specs.Prelude.{◌≡◌, IfOk, ℤ, All};
ghost use Rattle.cov_base.specs.Sets.{covers, least, greatest, EndsBy};
ghost use Rattle.cov_base.specs.Intervals.{IsRange, BeginInOrder};

use crate::Memory;
use crate::int::Int;
use std::alloc::Global;

/// Those whose ends are the right way round.
fn right_way_round(alloc: Global, ranges: &[(Int, Int)]) -> Result<Vec<(Int, Int)>, Memory>
    ensures ranges { IfOk result (λ kept. All IsRange kept.items) }
    ensures same { IfOk result (λ kept. (v : ℤ) → covers kept.items v ≡ covers ranges.now v) }
{
    let mut kept = Vec::new(alloc);
    for range in ranges {
        if range.0.get() <= range.1.get() {
            kept.push(*range)?;
        }
    }
    Ok(kept)
}

/// The ranges that stand for some number, in order of their low ends.
pub(super) fn ordered(alloc: Global, ranges: &[(Int, Int)]) -> Result<Vec<(Int, Int)>, Memory>
    ensures order { IfOk result (λ kept. BeginInOrder least kept.items) }
    ensures ends { IfOk result (λ kept. EndsBy greatest kept.items) }
    ensures same { IfOk result (λ kept. (v : ℤ) → covers kept.items v ≡ covers ranges.now v) }
{
    let mut kept = right_way_round(alloc, ranges)?;
    kept.sort()?;
    Ok(kept)
}
