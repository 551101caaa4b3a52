//! What each bit of a number's distance from the lowest one allows.
ghost use Rattle.std.specs.Prelude.{◌≡◌, ◌<◌, ◌≤◌};
ghost use Rattle.wildcard_bins.specs.Patterns.{allows as allows_bit};
ghost use Rattle.wildcard_bins.specs.Halves.{has_half as has_half_at};

use wildcard_bins::Pattern;

/// Whether a number may have this bit, 0 or 1, at the place.
fn allows(pattern: &Pattern, place: u8, bit: u64) -> bool
    requires { place < 64 }
    ensures { result ≡ allows_bit pattern.now place bit }
{
    if (pattern.free >> place) & 1 == 1 {
        return true;
    }
    bit == (pattern.bits >> place) & 1
}

/// Whether a number may have the bit at the place that it has where its distance from the lowest number of the type has
/// this bit there: the same one, and the other one where the place has the sign.
pub(crate) fn has_half(pattern: &Pattern, place: u8, bit: u64) -> bool
    requires place { place < 64 }
    requires bit { bit ≤ 1 }
    ensures { result ≡ has_half_at pattern.now place bit }
{
    if pattern.signed && place + 1 == pattern.width.get() {
        return allows(pattern, place, 1 - bit);
    }
    allows(pattern, place, bit)
}
