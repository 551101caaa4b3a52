//! Transition bins that are known by a word: the only list of their only sequence.
ghost use Rattle.std.specs.Prelude.{◌≡◌, ◌↔◌, Some, None, reverse, IfSome, IfOk, IsTrue, if◌then◌else◌};
ghost use Rattle.std.specs.Ordering.{int_eq};
ghost use Rattle.trans_seq.specs.Windows.{SomeHasWord};
ghost use Rattle.trans_seq.specs.Words.{one_of, value_once, word_of};
ghost use Rattle.point_tables.specs.Tables.{removed_by, AreKnownBy};

use crate::tables::Removers;
use cov_base::{Int, Memory, ValueSet};
use cov_tree::List as Word;
use design_data::BinKind;
use std::alloc::Global;
use trans_seq::{Item, Repeat, Seq};

/// The number of a range that has one.
fn only_number(low: Int, high: Int) -> Option<Int>
    ensures { result ≡ (if int_eq low high then Some low else None) }
{
    if low.get() == high.get() {
        return Some(low);
    }
    None
}

/// The number of a set that has one.
fn only_value(set: &ValueSet) -> Option<Int>
    ensures { result ≡ one_of set.now }
{
    match set.intervals() {
        [range] => only_number(range.0, range.1),
        _ => None,
    }
}

/// The value of an item that stands for one value, once.
fn value_of(item: &Item) -> Option<Int>
    ensures { result ≡ value_once item.now.repeat item.now.set }
{
    match item.repeat {
        Repeat::Once => only_value(&item.set),
        _ => None,
    }
}

/// The only list of a sequence, if each of its items stands for one value.
fn list_of(alloc: Global, items: &[Item]) -> Result<Option<Vec<Int>>, Memory>
    ensures { IfOk result (λ list. IfSome list (λ values. word_of items.now ≡ Some values.items)) }
{
    let mut values = Vec::new(alloc);
    for item in items {
        let Some(value) = value_of(item) else {
            return Ok(None);
        };
        values.push(value)?;
    }
    Ok(Some(values))
}

/// Whether a sequence takes the list away from bins of a kind.
fn is_removed(removers: &Removers, kind: BinKind, list: &[Int]) -> bool
    ensures { IsTrue result ↔ SomeHasWord (removed_by removers.now kind) list.now }
{
    match kind {
        BinKind::CvgBin => removers.covering.removes(list),
        BinKind::IgnoreBin => removers.ignoring.removes(list),
        BinKind::IllegalBin => removers.none.removes(list),
        BinKind::DefaultBin => removers.none.removes(list),
    }
}

/// The values from the last to the first.
fn last_first(values: Vec<Int>) -> Word<Int>
    ensures { result ≡ reverse values.items }
{
    let mut values = values;
    values.reverse();
    Word::of(values)
}

/// The word of a bin of a kind with these sequences, if it is known by one, with its last value first.
pub(crate) fn word_of_bin(
    alloc: Global,
    removers: &Removers,
    kind: BinKind,
    seqs: &[Seq],
) -> Result<Option<Word<Int>>, Memory>
    ensures { IfOk result
        (λ found. IfSome found (AreKnownBy (removed_by removers.now kind) seqs.now)) }
{
    let [seq] = seqs else {
        return Ok(None);
    };
    let Some(values) = list_of(alloc, seq.items.as_slice())? else {
        return Ok(None);
    };
    if values.is_empty() {
        return Ok(None);
    }
    if is_removed(removers, kind, values.as_slice()) {
        return Ok(None);
    }
    Ok(Some(last_first(values)))
}
