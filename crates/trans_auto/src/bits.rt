//! Bits of a mask.
ghost use Rattle.std.specs.Prelude.{◌≡◌, ◌≢◌, ℕ, ◌<◌, ◌↔◌, ◌||◌, ◌&&◌, false, true, IsTrue};
ghost use Rattle.trans_auto.specs.Masks.{has_bit};

/// Sets bit k, which was clear, where `set`.
#[inline(always)]
pub(crate) fn put(mask: u128, k: u32, set: bool) -> u128
    requires in_range { k < 128 }
    requires clear { has_bit mask k ≡ false }
    ensures here { has_bit result k ≡ set }
    ensures others { (i : ℕ) → i ≢ k → has_bit result i ≡ has_bit mask i }
{
    if set { mask | (1 << k) } else { mask }
}

/// Whether the masks have a bit in common.
#[inline(always)]
pub(crate) fn meets(mask: u128, other: u128) -> bool
    ensures { IsTrue result ↔ ((k : ℕ) × (has_bit mask k ≡ true) × (has_bit other k ≡ true)) }
{
    mask & other != 0
}

/// The bits of `start`, and those of `mask` where `wanted`.
#[inline(always)]
pub(crate) fn with(start: u128, mask: u128, wanted: bool) -> u128
    ensures { (k : ℕ) → has_bit result k ≡ (has_bit start k || wanted && has_bit mask k) }
{
    if wanted { start | mask } else { start }
}
