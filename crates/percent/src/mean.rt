//! Weighted means.
ghost use Rattle.std.specs.Prelude.{◌≡◌, ℕ, ◌+◌, ◌<◌, ◌^◌, List, [], ◌∷◌, ◌++◌, length};
ghost use Rattle.percent.specs.Millionths.{mean, sums};

use crate::WHOLE;
use std::marker::Model;

/// A weighted mean that is given its pairs of a weight and a value one after another, and takes no memory. Contracts see
/// the sums of the pairs given so far.
#[derive(Drop)]
pub struct Mean {
    pairs: u64,
    weight: u128,
    total: u128,
}

impl Model for Mean {
    ghost use Rattle.std.specs.Prelude.{◌*◌, ◌≤◌};
    ghost use Rattle.percent.specs.Millionths.{Sums};

    ghost Value = { Sums };

    ghost view = { λ m. record { pairs = m.pairs; weight = m.weight; total = m.total } };

    ghost invariant = { λ mean. (mean.weight ≤ mean.pairs * 4294967295)
        × (mean.total ≤ mean.weight * 4294967295) };
}

impl Mean {
    /// The mean of no pairs.
    pub fn new() -> Mean
        ensures { result ≡ sums [] }
    {
        Mean {
            pairs: 0,
            weight: 0,
            total: 0,
        }
    }

    /// Takes one pair more; of a value in millionths, or of any other number.
    pub fn add(&mut self, weight: u32, value: u32)
        requires { self.old.pairs + 1 < 2 ^ 64 }
        ensures sums { (parts : List (ℕ × ℕ)) → self.old ≡ sums parts
            → self.new ≡ sums (parts ++ (weight, value) ∷ []) }
        ensures pairs { self.new.pairs ≡ self.old.pairs + 1 }
    {
        self.pairs += 1;
        self.weight += u128::from(weight);
        self.total += u128::from(weight) * u128::from(value);
    }

    /// The mean of the pairs given so far, rounded down; the whole where their weights sum to 0.
    pub fn get(&self) -> u32
        ensures { (parts : List (ℕ × ℕ)) → self.now ≡ sums parts → result ≡ mean parts }
    {
        if self.weight == 0 {
            return WHOLE;
        }
        (self.total / self.weight) as u32
    }
}

/// The weighted mean of pairs of a weight and a value in millionths; the whole where the weights sum to 0.
pub fn weighted(parts: &[(u32, u32)]) -> u32
    ensures { result ≡ mean parts.now }
{
    let mut mean = Mean::new();
    for (weight, value) in parts {
        mean.add(*weight, *value);
    }
    mean.get()
}
