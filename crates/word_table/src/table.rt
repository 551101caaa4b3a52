//! Which words a trace ends with.
ghost use Rattle.std.specs.Prelude.{◌≡◌, ℕ, ℤ, ◌<◌, ◌≤◌, ◌+◌, ◌++◌, ◌∷◌, length, List, [], slice_index_or, AllPairs, OnOk, IfOk, not, ◌↔◌, ◌⊎◌};
ghost use Rattle.std.specs.List.{Contains};
ghost use Rattle.word_table.specs.Words.{is_before, has_ended, key, Ascends, IsSplit, Ends, back, AscendBelow};
ghost use Rattle.word_table.specs.Tables.{AreWords, Holds};

use crate::recent::Recent;
use crate::row::PlacedWord;
use cov_base::{Int, Memory};
use std::alloc::Global;
use std::marker::Model;

/// Words in order, each with its last value first. It takes 16 bytes a value, and 4 a word.
pub struct WordTable {
    /// The values of the words, one word behind the other.
    values: Vec<Int>,
    /// Where each word begins, and where the last one ends.
    starts: Vec<u32>,
}

impl Drop for WordTable {
    fn drop(self) {
        let WordTable {
            values: _,
            starts: _,
        } = self;
    }
}

impl Model for WordTable {
    ghost use Rattle.std.specs.Prelude.{ℤ, List, length};
    ghost use Rattle.word_table.specs.Tables.{pieces, AreStarts, AreWords};

    ghost Value = { List (List ℤ) };

    ghost view = { λ t. pieces t.starts.items t.values.items };

    ghost invariant = { λ t. AreStarts t.starts.items (length t.values.items)
        × AreWords (pieces t.starts.items t.values.items) };
}

/// Appends a word.
fn add_word(word: &[Int], values: &mut Vec<Int>, starts: &mut Vec<u32>) -> Result<(), Memory>
    requires fits { length values.old.items + length word.now < 4294967296 }
    ensures holds { OnOk result ((words : List (List ℤ))
        → Holds words starts.old.items values.old.items
        → Holds (words ++ word.now ∷ []) starts.new.items values.new.items) }
    ensures len { OnOk result
        (length values.new.items ≡ length values.old.items + length word.now) }
{
    values.extend_from_slice(word)?;
    starts.push(values.len() as u32)?;
    Ok(())
}

impl WordTable {
    ghost use Rattle.std.specs.Prelude.{◌≡◌, ◌<◌, ◌≤◌, ◌↔◌, ℕ, ℤ, [], length, map, slice_index_or, AllPairs, List, Option, IfOk, OnOk};
    ghost use Rattle.std.specs.List.{Contains};
    ghost use Rattle.word_table.specs.Words.{key, Ends};
    ghost use Rattle.word_table.specs.Recent.{AreLast};
    ghost use Rattle.word_table.specs.Tables.{AreWords};

    /// The table of these words.
    pub fn new(alloc: Global, rows: &[PlacedWord]) -> Result<WordTable, Memory>
        requires { AreWords (map (λ row. row.word) rows.now) }
        ensures { IfOk result (λ table. table ≡ map (λ row. row.word) rows.now) }
    {
        let mut values = Vec::new(alloc);
        let mut starts = Vec::new(alloc);
        starts.push(0)?;
        for row in rows {
            add_word(row.word.as_slice(), &mut values, &mut starts)?;
        }
        Ok(WordTable { values, starts })
    }

    /// How many words there are.
    #[inline(always)]
    pub fn len(&self) -> usize
        ensures count { result ≡ length self.now }
        ensures words { AreWords self.now }
    {
        self.starts.len() - 1
    }

    /// The value of a word that so many values come after.
    #[inline(always)]
    fn value_at(&self, place: usize, depth: usize) -> Option<Int>
        requires place { place < length self.now }
        requires depth { depth ≤ 120 }
        ensures { result ≡ key self.now depth place }
    {
        let at = self.starts[place] as usize + depth;
        if at >= self.starts[place + 1] as usize {
            return None;
        }
        Some(self.values[at])
    }

    /// Puts the places of the words that the trace ends with into `hits`. It takes no memory but for `hits`, and time by
    /// the length of the words that agree with the trace, and by the logarithm of how many words there are.
    pub fn ended(&self, recent: &Recent, hits: &mut Vec<u32>) -> Result<(), Memory>
        ensures ended { OnOk result ((w : List (Option ℤ)) → AreLast recent.now w
            → (place : ℕ) → Contains hits.new.items place
            ↔ ((place < length self.now) × Ends (slice_index_or self.now place []) w)) }
        ensures ascend { OnOk result (AllPairs (λ a b. a < b) hits.new.items) }
    {
        ended(self, recent.as_slice(), hits)?;
        Ok(())
    }
}

/// Whether a word's value stands before v, or is v where `up_to`. A word without a value there stands before all.
#[inline(always)]
fn stands_before(value: &Option<Int>, v: Int, up_to: bool) -> bool
    ensures { result ≡ is_before up_to v value.now }
{
    match value {
        None => true,
        Some(a) => {
            if up_to {
                a.get() <= v.get()
            } else {
                a.get() < v.get()
            }
        }
    }
}

/// The first word of a range that doesn't stand before v.
fn split(table: &WordTable, low: usize, high: usize, depth: usize, v: Int, up_to: bool) -> usize
    requires range { low ≤ high }
    requires inside { high ≤ length table.now }
    requires depth { depth ≤ 120 }
    requires ascends { Ascends table.now depth low high }
    ensures { IsSplit (λ k. is_before up_to v (key table.now depth k)) low high result }
{
    let mut from = low;
    let mut to = high;
    while from < to {
        let middle = from + (to - from) / 2;
        if stands_before(&table.value_at(middle, depth), v, up_to) {
            from = middle + 1;
        } else {
            to = middle;
        }
    }
    from
}

/// Whether there is a value.
#[inline(always)]
fn goes_on(value: &Option<Int>) -> bool
    ensures { result ≡ not (has_ended value.now) }
{
    value.is_some()
}

/// Appends the words of a range that end at the depth, which come first in it, and says where the others begin.
fn take_ended(
    table: &WordTable,
    low: usize,
    high: usize,
    depth: usize,
    hits: &mut Vec<u32>,
) -> Result<usize, Memory>
    requires range { low ≤ high }
    requires inside { high ≤ length table.now }
    requires few { length table.now ≤ 65536 }
    requires depth { depth ≤ 120 }
    requires ascends { Ascends table.now depth low high }
    ensures cut { IfOk result
        (λ cut. IsSplit (λ k. has_ended (key table.now depth k)) low high cut) }
    ensures hits { IfOk result (λ cut. (k : ℕ) → Contains hits.new.items k
        ↔ (Contains hits.old.items k ⊎ ((low ≤ k) × (k < cut)))) }
    ensures ascend { IfOk result (λ cut. AscendBelow low hits.old.items
        → AscendBelow cut hits.new.items) }
{
    for k in low..high {
        if goes_on(&table.value_at(k, depth)) {
            return Ok(k);
        }
        hits.push(k as u32)?;
    }
    Ok(high)
}

/// The value that so many values come after.
fn value_back(trace: &[Option<Int>], depth: usize) -> Option<Int>
    requires { depth < length trace.now }
    ensures { result ≡ back trace.now depth }
{
    trace[trace.len() - 1 - depth]
}

/// Puts the words that the trace ends with into `hits`. The trace is given by its last values, or whole.
fn ended(table: &WordTable, trace: &[Option<Int>], hits: &mut Vec<u32>) -> Result<(), Memory>
    ensures words { AreWords table.now }
    ensures hits { OnOk result ((k : ℕ) → Contains hits.new.items k
        ↔ ((k < length table.now) × Ends (slice_index_or table.now k []) trace.now)) }
    ensures ascend { OnOk result (AllPairs (λ a b. a < b) hits.new.items) }
{
    hits.clear();
    let mut low = 0;
    let mut high = table.len();
    for depth in 0..121usize {
        low = take_ended(table, low, high, depth, hits)?;
        if depth >= trace.len() {
            return Ok(());
        }
        let Some(v) = value_back(trace, depth) else {
            return Ok(());
        };
        let from = split(table, low, high, depth, v, false);
        high = split(table, low, high, depth, v, true);
        low = from;
        if low >= high {
            return Ok(());
        }
    }
    Ok(())
}
