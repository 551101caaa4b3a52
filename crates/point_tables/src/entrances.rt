//! The values with which windows of a transition bin may begin.
ghost use Rattle.std.specs.Prelude.{◌≡◌, ◌⊎◌, ◌<◌, ◌≤◌, ℤ, [], Some, None, true, false, length, IsTrue};
ghost use Rattle.std.specs.List.{AllByRecursion};
ghost use Rattle.trans_seq.specs.Windows.{is_known_in};
ghost use Rattle.design_data.specs.Laws.{Value};
ghost use Rattle.point_tables.specs.Tables.{IsEntrance, IsOut, BeginsElsewhere, key as key_of_number, AreResting};

use crate::tables::Entrance;
use cov_base::{Int, ValueSet};
use trans_auto::TransState;
use trans_seq::{Item, Repeat, Seq};

/// The least number of an `Int`.
const LEAST: i128 = -0x8000_0000_0000_0000;

/// That of windows that may begin with any value, Unknown included.
fn open_entrance() -> Entrance
    ensures { (v : Value) → IsOut result v → ⊥ }
{
    Entrance {
        bounded: false,
        low: 0,
        high: u64::MAX,
    }
}

/// The key of a number.
#[inline(always)]
fn key_of(number: Int) -> u64
    ensures { result ≡ key_of_number number }
{
    (number.get() - LEAST).min(u64::MAX as i128) as u64
}

/// With further windows, which begin with a value of the set.
fn with_set(set: &ValueSet, sofar: Entrance) -> Entrance
    ensures { (v : Value) → IsOut result v → (is_known_in set.now v ≡ false) × IsOut sofar v }
{
    let ranges = set.intervals();
    let count = ranges.len();
    if count == 0 {
        return sofar;
    }
    let low = key_of(ranges[0].0).min(sofar.low);
    let high = key_of(ranges[count - 1].1).max(sofar.high);
    Entrance {
        bounded: sofar.bounded,
        low,
        high,
    }
}

/// With the windows of a further sequence, whose first item stands for one value or leaves no bounds.
fn with_items(items: &[Item], sofar: Entrance) -> Entrance
    ensures { (v : Value) → IsOut result v → BeginsElsewhere v items.now × IsOut sofar v }
{
    match items {
        [] => sofar,
        [item, ..] => match item.repeat {
            Repeat::Once => with_set(&item.set, sofar),
            _ => open_entrance(),
        },
    }
}

/// With the windows of further sequences.
fn with_seqs(seqs: &[Seq], sofar: Entrance) -> Entrance
    ensures { (v : Value) → IsOut result v
        → AllByRecursion (λ seq. BeginsElsewhere v seq.items) seqs.now × IsOut sofar v }
{
    match seqs {
        [] => sofar,
        [seq, others @ ..] => {
            let wider = with_items(seq.items.as_slice(), sofar);
            with_seqs(others, wider)
        }
    }
}

/// The values with which windows of the sequences begin.
pub(crate) fn entrance_of(seqs: &[Seq]) -> Entrance
    ensures { IsEntrance seqs.now result }
{
    let none = Entrance {
        bounded: true,
        low: u64::MAX,
        high: 0,
    };
    with_seqs(seqs, none)
}

/// Whether no window stands, and none begins with a number that has this key.
#[inline(always)]
fn rests(entrance: &Entrance, state: &TransState, key: u64) -> bool
    ensures none { IsTrue result → state.now ≡ [] }
    ensures out { IsTrue result → (key < entrance.now.low) ⊎ (entrance.now.high < key) }
{
    state.runs.is_empty() && ((key < entrance.low) | (entrance.high < key))
}

/// Whether no window stands, and none begins with Unknown.
#[inline(always)]
fn rests_unknown(entrance: &Entrance, state: &TransState) -> bool
    ensures none { IsTrue result → state.now ≡ [] }
    ensures out { IsTrue result → entrance.now.bounded ≡ true }
{
    state.runs.is_empty() && entrance.bounded
}

/// The first automaton from this place on that doesn't rest at a number that has this key.
fn first_at(entrances: &[Entrance], runs: &[TransState], key: u64, from: usize) -> usize
    requires same { length entrances.now ≡ length runs.now }
    requires order { from ≤ length runs.now }
    ensures order { from ≤ result }
    ensures within { result ≤ length runs.now }
    ensures rest { (number : ℤ) → key ≡ key_of_number number
        → AreResting entrances.now runs.now (Some number) from result }
{
    for k in from..runs.len() {
        if !rests(&entrances[k], &runs[k], key) {
            return k;
        }
    }
    runs.len()
}

/// The first automaton from this place on that doesn't rest at Unknown.
fn first_at_unknown(entrances: &[Entrance], runs: &[TransState], from: usize) -> usize
    requires same { length entrances.now ≡ length runs.now }
    requires order { from ≤ length runs.now }
    ensures order { from ≤ result }
    ensures within { result ≤ length runs.now }
    ensures rest { AreResting entrances.now runs.now None from result }
{
    for k in from..runs.len() {
        if !rests_unknown(&entrances[k], &runs[k]) {
            return k;
        }
    }
    runs.len()
}

/// The first automaton from this place on of which a window stands or may begin with the value.
#[inline(always)]
pub fn first_stirring(
    entrances: &[Entrance],
    runs: &[TransState],
    value: &Option<Int>,
    from: usize,
) -> usize
    requires same { length entrances.now ≡ length runs.now }
    requires order { from ≤ length runs.now }
    ensures order { from ≤ result }
    ensures within { result ≤ length runs.now }
    ensures rest { AreResting entrances.now runs.now value.now from result }
{
    match value {
        None => first_at_unknown(entrances, runs, from),
        Some(number) => first_at(entrances, runs, key_of(*number), from),
    }
}
