//! Keys of values: how far they stand above the least value of their point.
ghost use Rattle.std.specs.Prelude.{◌≡◌, ◌↔◌, ℕ, ◌^◌, ◌<◌, pos, ◌+ℤ◌, ◌≤ℤ◌, IfOk, IfSome, Some};
ghost use Rattle.point_tables.specs.Keys.{range_at, AreKeysOf};

use const_eval::typ;
use cov_base::{Int, Memory, ValueSet, lowest_of};
use design_data::{ItemInfo, ItemShape};
use std::alloc::Global;
use value_index::{Set, Span};

/// The least value of the point's type.
pub(crate) fn least_of(item: &ItemInfo) -> Int
    ensures { result ≤ℤ pos 0 }
{
    match &item.shape {
        ItemShape::Point(expr) => {
            let typ = typ(expr);
            lowest_of(typ.width(), typ.is_signed())
        }
        ItemShape::Cross(_) => Int::of(0),
    }
}

/// The key of a value; None where it is below the least one, or 2^64 and more above it.
#[inline(always)]
pub fn key_of(least: Int, value: Int) -> Option<u64>
    ensures exact { (key : ℕ) → key < 2 ^ 64 → (result ≡ Some key) ↔ (value ≡ least +ℤ pos key) }
    ensures some { IfSome result (λ key. value ≡ least +ℤ pos key) }
{
    let key = value.get() - least.get();
    if key < 0 {
        return None;
    }
    if key > 0xffff_ffff_ffff_ffff {
        return None;
    }
    Some(key as u64)
}

/// The keys of a range's numbers; None where an end has none.
fn span_of(least: Int, range: &(Int, Int)) -> Option<Span>
    ensures { IfSome result (λ span. range_at least span ≡ range.now) }
{
    let low = key_of(least, range.0)?;
    let high = key_of(least, range.1)?;
    Some(Span { low, high })
}

/// The keys of the numbers of a set; None where some of them have none.
pub(crate) fn keys_of(alloc: Global, least: Int, set: &ValueSet) -> Result<Option<Set>, Memory>
    ensures { IfOk result (λ made. IfSome made (AreKeysOf least set.now)) }
{
    let mut spans = Vec::new(alloc);
    for range in set.intervals() {
        let Some(span) = span_of(least, range) else {
            return Ok(None);
        };
        spans.push(span)?;
    }
    Ok(Some(Set::of(spans)))
}
