//! Where the records of a store come from.
ghost use Rattle.std.specs.Prelude.{◌≡◌, ◌∷◌, [], length, MatchOption};
ghost use Rattle.covd_commands.specs.Origins.{origin_of, origins_of};

use crate::forms::Numbers;

/// Where a record comes from.
#[derive(Clone, Copy)]
pub enum Origin<'a> {
    /// From the file of this name.
    File(&'a str),
    /// From the generator.
    Made(Numbers),
}

/// Where records come from that are taken in one after the other.
#[derive(Clone, Copy)]
pub enum Origins<'a> {
    /// From the files of these names.
    Files(&'a [String]),
    /// From the generator, which makes so many.
    Made(Numbers),
}

impl<'a> Origins<'a> {
    ghost use Rattle.std.specs.Prelude.{◌≡◌, ◌∷◌, [], length, MatchOption};
    ghost use Rattle.covd_commands.specs.Origins.{origin_of, origins_of};

    /// How many there are.
    pub fn len(self) -> usize
        ensures { result ≡ length (origins_of self.entry) }
    {
        match self {
            Origins::Files(names) => names.len(),
            Origins::Made(numbers) => numbers.tests as usize,
        }
    }

    /// The first, and those behind it.
    pub fn split_first(self) -> Option<(Origin<'a>, Origins<'a>)>
        ensures { MatchOption result (origins_of self.entry ≡ [])
            (λ parts. origins_of self.entry ≡ origin_of parts.0 ∷ origins_of parts.1) }
    {
        match self {
            Origins::Files(names) => match names.split_first() {
                Some((name, later)) => Some((Origin::File(name.as_str()), Origins::Files(later))),
                None => None,
            },
            Origins::Made(numbers) => {
                if numbers.tests == 0 {
                    return None;
                }
                let left = Numbers {
                    tests: numbers.tests - 1,
                    ..numbers
                };
                Some((Origin::Made(numbers), Origins::Made(left)))
            }
        }
    }
}
