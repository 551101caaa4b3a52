//! Whether a transition bin has a sequence left, where others are removed.
ghost use Rattle.std.specs.Prelude.{◌≡◌, not, ◌&&◌};
ghost use Rattle.std.specs.List.{list_any};
ghost use Rattle.design_data.specs.Bins.{removing_seqs};
ghost use Rattle.design_data.specs.Left.{is_same_seq, has_numbers as has_numbers_of, has_lists as has_lists_of, has_seq_left as has_seq_left_of};

use crate::{BinKind, ItemInfo};
use cov_base::ValueSet;
use trans_seq::Seq;

/// Whether both sequences are written alike.
fn is_same(first: &Seq, second: &Seq) -> bool
    ensures { result ≡ is_same_seq first.now second.now }
{
    first.is_same(second)
}

/// Whether the sequence is one of these.
fn is_among(seq: &Seq, seqs: &[Seq]) -> bool
    ensures { result ≡ list_any (is_same_seq seq.now) seqs.now }
{
    for other in seqs {
        if is_same(seq, other) {
            return true;
        }
    }
    false
}

/// Whether the sequence is one of an item's ignored or illegal ones.
fn is_in_either(item: &ItemInfo, seq: &Seq) -> bool
    ensures { result ≡ list_any (is_same_seq seq.now) (removing_seqs item.now BinKind.CvgBin) }
{
    is_among(seq, item.ignored.as_slice()) || is_among(seq, item.illegal.as_slice())
}

/// Whether the sequence is one of those that a bin of this kind loses.
fn is_removed(item: &ItemInfo, kind: BinKind, seq: &Seq) -> bool
    ensures { result ≡ list_any (is_same_seq seq.now) (removing_seqs item.now kind) }
{
    match kind {
        BinKind::CvgBin => is_in_either(item, seq),
        BinKind::IgnoreBin => is_among(seq, item.illegal.as_slice()),
        BinKind::IllegalBin => false,
        BinKind::DefaultBin => false,
    }
}

fn has_numbers(set: &ValueSet) -> bool
    ensures { result ≡ has_numbers_of set.now }
{
    !set.intervals().is_empty()
}

/// Whether each item of the sequence has a number.
fn has_lists(seq: &Seq) -> bool
    ensures { result ≡ has_lists_of seq.now }
{
    for item in seq.items.as_slice() {
        if !has_numbers(&item.set) {
            return false;
        }
    }
    true
}

/// Whether the sequence has a list and is none of those that a bin of this kind loses.
fn is_left(item: &ItemInfo, kind: BinKind, seq: &Seq) -> bool
    ensures { result ≡ (has_lists_of seq.now && not (list_any (is_same_seq seq.now) (removing_seqs item.now kind))) }
{
    has_lists(seq) && !is_removed(item, kind, seq)
}

/// Whether a transition bin of this kind has some sequence left.
pub(crate) fn has_seq_left(item: &ItemInfo, kind: BinKind, seqs: &[Seq]) -> bool
    ensures { result ≡ has_seq_left_of (removing_seqs item.now kind) seqs.now }
{
    for seq in seqs {
        if is_left(item, kind, seq) {
            return true;
        }
    }
    false
}
