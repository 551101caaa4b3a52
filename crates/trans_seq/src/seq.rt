//! What a transition sequence is written of.
ghost use Rattle.std.specs.Prelude.{◌≡◌, ◌↔◌, ◌++◌, IsTrue, IfOk, OnOk};
ghost use Rattle.trans_seq.specs.Cells.{cells_of_repeat};

use cov_base::{Memory, ValueSet};
use cov_tree::List;
use std::alloc::Global;

/// How often the values of an item stand (IEEE 1800-2017, 19.5.2). Written repetitions have 1 <= low <= high. All
/// other bounds have their plain meaning too: with a low end of 0 the item may be passed over, and with the ends the
/// wrong way round it has no list.
#[derive(Clone, Copy, PartialEq, Eq)]
pub enum Repeat {
    /// One sample inside.
    Once,
    /// `[*low:high]`: that many samples inside, one directly after the other.
    Consec { low: u32, high: u32 },
    /// `[->low:high]`: that many samples inside, with any number of samples outside before each of them.
    Goto { low: u32, high: u32 },
    /// `[=low:high]`: as `Goto`, and any number of samples outside before an item that follows.
    NonConsec { low: u32, high: u32 },
}

/// One item of a sequence: the values, and how often they stand.
#[derive(PartialEq, Eq)]
pub struct Item {
    /// The values that are inside. An unknown sample never is.
    pub set: ValueSet,
    /// How often they stand.
    pub repeat: Repeat,
}

impl Drop for Item {
    fn drop(self) {
        let Item { set: _, repeat: _ } = self;
    }
}

/// A transition sequence: its items one after another.
pub struct Seq {
    /// The items in order.
    pub items: List<Item>,
}

impl Drop for Seq {
    fn drop(self) {
        let Seq { items: _ } = self;
    }
}

impl Repeat {
    /// How many cells an automaton has for an item of this repetition.
    pub fn cells(self) -> u64
        ensures { result ≡ cells_of_repeat self }
    {
        match self {
            Repeat::Once => 1,
            Repeat::Consec { high, .. } => u64::from(high),
            Repeat::Goto { high, .. } => 2 * u64::from(high),
            Repeat::NonConsec { high, .. } => 2 * u64::from(high) + 1,
        }
    }
}

impl Item {
    /// Whether the other item has the same values, as often.
    pub fn is_same(&self, other: &Item) -> bool
        ensures { IsTrue result ↔ (self.now ≡ other.now) }
    {
        same_values(&self.set, &other.set) && same_repeat(self.repeat, other.repeat)
    }

    /// The same item once more.
    pub fn copy(&self, alloc: Global) -> Result<Item, Memory>
        ensures { IfOk result (λ item. item ≡ self.now) }
    {
        Ok(Item {
            set: self.set.copy(alloc)?,
            repeat: self.repeat,
        })
    }
}

impl Seq {
    /// Whether the other sequence has the same items, one by one.
    pub fn is_same(&self, other: &Seq) -> bool
        ensures { IsTrue result ↔ (self.now ≡ other.now) }
    {
        same_items(self.items.as_slice(), other.items.as_slice())
    }

    /// The same sequence once more.
    pub fn copy(&self, alloc: Global) -> Result<Seq, Memory>
        ensures { IfOk result (λ seq. seq ≡ self.now) }
    {
        Ok(Seq {
            items: List::of(copied_items(alloc, self.items.as_slice())?),
        })
    }
}

/// Appends copies of the sequences.
pub fn append_copies(alloc: Global, seqs: &[Seq], copies: &mut Vec<Seq>) -> Result<(), Memory>
    ensures { OnOk result (copies.new.items ≡ copies.old.items ++ seqs.now) }
{
    for seq in seqs {
        copies.push(seq.copy(alloc)?)?;
    }
    Ok(())
}

/// Copies of the items, in order.
pub fn copied_items(alloc: Global, items: &[Item]) -> Result<Vec<Item>, Memory>
    ensures { IfOk result (λ copies. copies.items ≡ items.now) }
{
    let mut copies = Vec::with_capacity(alloc, items.len())?;
    for item in items {
        copies.push(item.copy(alloc)?)?;
    }
    Ok(copies)
}

/// Whether both sets have the same values.
pub fn same_values(first: &ValueSet, second: &ValueSet) -> bool
    ensures { IsTrue result ↔ (first.now ≡ second.now) }
{
    first == second
}

fn same_repeat(first: Repeat, second: Repeat) -> bool
    ensures { IsTrue result ↔ (first ≡ second) }
{
    first == second
}

fn same_items(first: &[Item], second: &[Item]) -> bool
    ensures { IsTrue result ↔ (first.now ≡ second.now) }
{
    if first.len() != second.len() {
        return false;
    }
    for (k, item) in first.iter().enumerate() {
        if !item.is_same(&second[k]) {
            return false;
        }
    }
    true
}
