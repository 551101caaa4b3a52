//! What a name stands for.
ghost use Rattle.std.specs.Prelude.{◌≡◌};
ghost use Rattle.const_eval.specs.Terms.{typ_in, low_in};

use crate::Typ;
use cov_base::Int;

/// The index of the signal that `item` stands for in a `with` (IEEE 1800-2017, 19.5.1.1): it is no place of the list of
/// signals, and its value is given apart.
pub const ITEM: u16 = 65_535;

/// What a name in an expression stands for.
#[derive(Clone, Copy, PartialEq, Eq)]
pub enum Meaning {
    /// A signal, by its place in the list of signals.
    Signal {
        /// Its place, or `ITEM`.
        index: u16,
        /// Its type.
        typ: Typ,
        /// The low end of its span.
        low: u8,
    },
    /// A number that is known before any sample.
    Const {
        /// The number.
        value: Int,
        /// Its type.
        typ: Typ,
        /// The low end of a formal's span. A constant of an enumeration has none, and no bits of it can be selected.
        low: Option<u8>,
    },
}

impl Meaning {
    /// Its type.
    #[inline(always)]
    pub fn typ(&self) -> Typ
        ensures { result ≡ typ_in self.now }
    {
        match self {
            Meaning::Signal { typ, .. } => *typ,
            Meaning::Const { typ, .. } => *typ,
        }
    }

    /// The low end of the span from which bits can be selected.
    pub fn low(&self) -> Option<u8>
        ensures { result ≡ low_in self.now }
    {
        match self {
            Meaning::Signal { low, .. } => Some(*low),
            Meaning::Const { low, .. } => *low,
        }
    }
}
