//! What a lock keeps.
ghost use Rattle.std.specs.Prelude.{◌≡◌, ℕ, List, length};

/// A value with a base that stays and a list of entries that grows.
pub trait Book {
    type Base;

    type Entry;

    /// What stays.
    ghost base: { Self → Self.Base };

    /// The entries in order.
    ghost entries: { Self → List Self.Entry };

    /// The number of an entry: whose it is.
    ghost number: { Self.Entry → ℕ };

    /// These entries may stand over this base.
    ghost sound: { Self.Base → List Self.Entry → Type 0 };

    /// The number of its entries.
    fn len(&self) -> u64
        ensures { result ≡ length (entries self.now) };

    /// Every value's base and entries are sound.
    ghost is_sound: { (book : Self) → sound (base book) (entries book) };
}
