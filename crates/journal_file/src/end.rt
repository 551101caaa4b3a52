//! Where the items of a journal end.
ghost use Rattle.std.specs.Prelude.{◌≡◌, ◌+◌, ◌<◌, ◌^◌, ◌++◌, ◌∷◌, [], ℕ, List, length};
ghost use Rattle.sha2.specs.Sha256.{sha256};
ghost use Rattle.journal_bytes.specs.Items.{Item, head_of};
ghost use Rattle.journal_file.specs.Ending.{EndsAt, IsRoomy};

use journal_bytes::sum_behind;

/// Where items end.
#[derive(Clone, Copy, Debug, PartialEq, Eq)]
pub struct End {
    /// The place in bytes of the gate behind them.
    pub place: u64,
    /// How many they are.
    pub count: u64,
    /// The sum of the last, or the digest of the design text where there is none.
    pub sum: [u8; 32],
}

impl End {
    /// Where a journal without items ends, for the design text of this SHA-256.
    pub fn first(digest: &[u8; 32]) -> End
        ensures end { EndsAt digest.now [] result }
        ensures room { IsRoomy result }
    {
        End {
            place: 40,
            count: 0,
            sum: *digest,
        }
    }

    /// Where they end with one item more, of this head and these bytes.
    pub fn behind(&self, head: &[u8; 9], content: &[u8]) -> End
        requires room { IsRoomy self.now }
        requires short { length content.now < 2 ^ 32 }
        ensures end { (digest : List ℕ) (items : List Item) (item : Item) → EndsAt digest items self.now
            → head.now ≡ head_of item → content.now ≡ item.content → EndsAt digest (items ++ item ∷ []) result }
        ensures place { result.place ≡ self.now.place + (10 + length content.now) }
        ensures count { result.count ≡ self.now.count + 1 }
    {
        End {
            place: self.place + (10 + content.len() as u64),
            count: self.count + 1,
            sum: sum_behind(&self.sum, head, content),
        }
    }
}
