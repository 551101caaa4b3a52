//! Words with the places of what they stand for.
ghost use Rattle.std.specs.Prelude.{◌≡◌, ◌++◌, ◌<◌, ℕ, List, [], length, map, All, AllPairs, slice_index, IfOk, OnOk, IsTrue};
ghost use Rattle.std.specs.List.Sorted.{IsPermutation};
ghost use Rattle.word_table.specs.Words.{IsSorted as AreSorted};
ghost use Rattle.word_table.specs.Placed.{ArePlaced, AddsEnded};

use crate::recent::Recent;
use crate::row::PlacedWord;
use crate::table::WordTable;
use cov_base::Memory;
use std::alloc::Global;
use std::marker::Model;

/// Words with the places of what they stand for. It takes 16 bytes a value, and 8 a word.
pub struct PlacedWords {
    words: WordTable,
    /// The place of each word.
    places: Vec<u32>,
}

impl Drop for PlacedWords {
    fn drop(self) {
        let PlacedWords {
            words: _,
            places: _,
        } = self;
    }
}

impl Model for PlacedWords {
    ghost use Rattle.std.specs.Prelude.{◌≡◌, List, length};
    ghost use Rattle.word_table.specs.declared.row.PlacedWord.{PlacedWord};
    ghost use Rattle.word_table.specs.Placed.{rows_of};

    ghost Value = { List PlacedWord };

    ghost view = { λ p. rows_of p.words p.places.items };

    ghost invariant = { λ p. length p.places.items ≡ length p.words };
}

/// Puts words in order.
fn sort(rows: &mut Vec<PlacedWord>)
    ensures permutation { IsPermutation rows.old.items rows.new.items }
    ensures sorted { AreSorted (map (λ row. row.word) rows.new.items) }
{
    rows.sort_unstable_by(|a: &PlacedWord, b: &PlacedWord| {
        a.word.as_slice().cmp(&b.word.as_slice())
    });
}

/// The places of words.
fn places_of(alloc: Global, rows: &[PlacedWord]) -> Result<Vec<u32>, Memory>
    ensures { IfOk result (λ places. places.items ≡ map (λ row. row.place) rows.now) }
{
    let mut places = Vec::new(alloc);
    for row in rows {
        places.push(row.place)?;
    }
    Ok(places)
}

/// Appends the places at some indexes.
fn add_places(places: &[u32], hits: &[u32], met: &mut Vec<u32>) -> Result<(), Memory>
    requires { All (λ hit. hit < length places.now) hits.now }
    ensures { OnOk result
        (met.new.items ≡ met.old.items ++ map (λ hit. slice_index places.now hit) hits.now) }
{
    for hit in hits {
        met.push(places[*hit as usize])?;
    }
    Ok(())
}

impl PlacedWords {
    ghost use Rattle.std.specs.Prelude.{◌≡◌, ◌<◌, [], ℕ, List, length, IfOk, OnOk, IsTrue};
    ghost use Rattle.std.specs.List.Sorted.{IsPermutation};
    ghost use Rattle.word_table.specs.Placed.{ArePlaced, AddsEnded};

    /// The words in order. It takes the time to sort them.
    pub fn new(alloc: Global, rows: Vec<PlacedWord>) -> Result<PlacedWords, Memory>
        requires { ArePlaced rows.items }
        ensures { IfOk result (λ placed. IsPermutation rows.items placed) }
    {
        let mut rows = rows;
        sort(&mut rows);
        let words = WordTable::new(alloc, rows.as_slice())?;
        let places = places_of(alloc, rows.as_slice())?;
        Ok(PlacedWords { words, places })
    }

    /// Whether there are no words.
    #[inline(always)]
    pub fn is_empty(&self) -> bool
        ensures { IsTrue result → self.now ≡ [] }
    {
        self.places.is_empty()
    }

    /// Appends the places of the words that the trace ends with to `met`, and says whether there is one. `hits` is room
    /// that it uses. It takes no memory but for these, and time by the length of the words that agree with the trace, and
    /// by the logarithm of how many words there are.
    pub fn add_ended(
        &self,
        recent: &Recent,
        hits: &mut Vec<u32>,
        met: &mut Vec<u32>,
    ) -> Result<bool, Memory>
        ensures { IfOk result
            (λ some. AddsEnded self.now recent.now met.old.items met.new.items some) }
    {
        self.words.ended(recent, hits)?;
        add_places(self.places.as_slice(), hits.as_slice(), met)?;
        Ok(!hits.is_empty())
    }
}
