//! What removal leaves of transition bins.
ghost use Rattle.std.specs.Prelude.{◌≡◌, [], IsTrue, IfOk, true};
ghost use Rattle.std.specs.List.{list_any};
ghost use Rattle.trans_seq.specs.Words.{one_of as number_of_set, value_once as value_of_item, word_of as word_of_items};
ghost use Rattle.design_data.specs.Left.{is_same_seq as are_same_seqs, has_numbers as has_ranges, has_lists as has_all_numbers};
ghost use Rattle.elab_transitions.specs.Tests.{in_some};
ghost use Rattle.elab_transitions.specs.Removal.{removing_of, is_seq_left as is_left, is_trans_left};

use cov_base::{Int, Memory, ValueSet};
use cov_tree::List;
use design_data::{BinInfo, BinKind, BinRule};
use std::alloc::Global;
use std::marker::Model;
use trans_auto::Removing;
use trans_seq::{Item, Repeat, Seq, append_copies};

/// The ignored and the illegal sequences of a point, as they are declared. Contracts see these two lists.
#[derive(Drop)]
pub struct Removers {
    ignored: List<Seq>,
    illegal: List<Seq>,
    /// Both, as they take lists away.
    all: Removing,
    /// The illegal ones, as they take lists away.
    forbidden: Removing,
}

impl Model for Removers {
    ghost use Rattle.std.specs.Prelude.{◌≡◌, ◌++◌, List};
    ghost use Rattle.trans_seq.specs.declared.seq.Seq.{Seq};

    ghost Value = { List Seq × List Seq };

    ghost view = { λ r. (r.ignored, r.illegal) };

    ghost invariant = { λ r. (r.all ≡ r.ignored ++ r.illegal) × (r.forbidden ≡ r.illegal) };
}

/// Whether the sequence is one of these, item by item.
fn is_same(seq: &Seq, other: &Seq) -> bool
    ensures { result ≡ are_same_seqs seq.now other.now }
{
    seq.is_same(other)
}

fn is_among(seq: &Seq, seqs: &[Seq]) -> bool
    ensures { result ≡ list_any (are_same_seqs seq.now) seqs.now }
{
    seqs.iter().any(|other| is_same(seq, other))
}

#[tactic(auto, using(crate::proofs::Same::some_numbers))]
fn has_number(item: &Item) -> bool
    ensures { result ≡ has_ranges item.now.set }
{
    !item.set.intervals().is_empty()
}

fn has_numbers(seq: &Seq) -> bool
    ensures { result ≡ has_all_numbers seq.now }
{
    seq.items.as_slice().iter().all(|item| has_number(item))
}

/// The number of a set that has one.
fn only_number(set: &ValueSet) -> Option<Int>
    ensures { result ≡ number_of_set set.now }
{
    match set.intervals() {
        [range] => {
            if range.0.get() == range.1.get() {
                Some(range.0)
            } else {
                None
            }
        }
        _ => None,
    }
}

/// The value of an item that has one, once.
fn only_value(item: &Item) -> Option<Int>
    ensures { result ≡ value_of_item item.now.repeat item.now.set }
{
    match item.repeat {
        Repeat::Once => only_number(&item.set),
        Repeat::Consec { .. } => None,
        Repeat::Goto { .. } => None,
        Repeat::NonConsec { .. } => None,
    }
}

/// The only list of a sequence of single values.
fn only_list(alloc: Global, items: &[Item]) -> Result<Option<List<Int>>, Memory>
    ensures { IfOk result (λ list. list ≡ word_of_items items.now) }
{
    let mut list = Vec::with_capacity(alloc, items.len())?;
    for item in items {
        let Some(value) = only_value(item) else {
            return Ok(None);
        };
        list.push(value)?;
    }
    Ok(Some(List::of(list)))
}

/// Sequences that take lists away. Those of a point have 120 cells at most together, so that none are refused.
fn removing(alloc: Global, seqs: &[Seq]) -> Result<Removing, Memory>
    ensures { IfOk result (λ removing. removing ≡ seqs.now) }
{
    match Removing::new(alloc, seqs) {
        Ok(removing) => Ok(removing),
        Err(_) => Err(Memory),
    }
}

/// Whether the list of known values is one of the sequences'.
fn removes(removing: &Removing, list: &[Int]) -> bool
    ensures { result ≡ in_some removing.now list.now }
{
    removing.removes(list)
}

#[tactic(auto, using(crate::proofs::Untaken::no_seqs))]
fn has_none(seqs: &List<Seq>) -> bool
    ensures { IsTrue result → seqs.now ≡ [] }
{
    seqs.as_slice().is_empty()
}

impl Removers {
    /// The ignored and the illegal sequences of a point, which have 120 cells at most together.
    pub fn new(alloc: Global, ignored: List<Seq>, illegal: List<Seq>) -> Result<Removers, Memory>
        ensures { IfOk result (λ removers. removers ≡ (ignored, illegal)) }
    {
        let mut seqs = Vec::new(alloc);
        append_copies(alloc, ignored.as_slice(), &mut seqs)?;
        append_copies(alloc, illegal.as_slice(), &mut seqs)?;
        let all = removing(alloc, seqs.as_slice())?;
        let forbidden = removing(alloc, illegal.as_slice())?;
        Ok(Removers {
            ignored,
            illegal,
            all,
            forbidden,
        })
    }

    /// Gives the ignored and the illegal sequences back. It takes no memory.
    pub fn into_seqs(self) -> (List<Seq>, List<Seq>)
        ensures { result ≡ self }
    {
        (self.ignored, self.illegal)
    }

    /// Whether the list of known values is taken from bins of a kind.
    #[tactic(auto, unfolding(crate::specs::Tests::in_some))]
    fn removes(&self, kind: BinKind, list: &[Int]) -> bool
        ensures { result ≡ in_some (removing_of kind self.now.0 self.now.1) list.now }
    {
        match kind {
            BinKind::CvgBin => removes(&self.all, list),
            BinKind::IgnoreBin => removes(&self.forbidden, list),
            BinKind::IllegalBin => false,
            BinKind::DefaultBin => false,
        }
    }

    /// Whether the sequence takes itself away from bins of a kind, item by item.
    fn has(&self, kind: BinKind, seq: &Seq) -> bool
        ensures { result ≡ list_any (are_same_seqs seq.now) (removing_of kind self.now.0 self.now.1) }
    {
        match kind {
            BinKind::CvgBin => {
                is_among(seq, self.ignored.as_slice()) || is_among(seq, self.illegal.as_slice())
            }
            BinKind::IgnoreBin => is_among(seq, self.illegal.as_slice()),
            BinKind::IllegalBin => false,
            BinKind::DefaultBin => false,
        }
    }

    /// Whether nothing is taken from bins of a kind.
    fn takes_none(&self, kind: BinKind) -> bool
        ensures { IsTrue result → removing_of kind self.now.0 self.now.1 ≡ [] }
    {
        match kind {
            BinKind::CvgBin => has_none(&self.ignored) && has_none(&self.illegal),
            BinKind::IgnoreBin => has_none(&self.illegal),
            BinKind::IllegalBin => true,
            BinKind::DefaultBin => true,
        }
    }

    #[tactic(auto, using(crate::proofs::Untaken::untaken))]
    fn is_list_left(&self, alloc: Global, kind: BinKind, seq: &Seq) -> Result<bool, Memory>
        ensures { IfOk result (λ left. left ≡ is_left true (removing_of kind self.now.0 self.now.1) seq.now) }
    {
        if self.takes_none(kind) {
            return Ok(true);
        }
        match only_list(alloc, seq.items.as_slice())? {
            None => Ok(true),
            Some(list) => Ok(!self.removes(kind, list.as_slice())),
        }
    }

    fn is_seq_left(
        &self,
        alloc: Global,
        array: bool,
        kind: BinKind,
        seq: &Seq,
    ) -> Result<bool, Memory>
        ensures { IfOk result (λ left. left ≡ is_left array (removing_of kind self.now.0 self.now.1) seq.now) }
    {
        if array {
            self.is_list_left(alloc, kind, seq)
        } else {
            Ok(has_numbers(seq) && !self.has(kind, seq))
        }
    }

    fn is_some_left(
        &self,
        alloc: Global,
        array: bool,
        kind: BinKind,
        seqs: &[Seq],
    ) -> Result<bool, Memory>
        ensures { IfOk result (λ left. left ≡ list_any (is_left array (removing_of kind self.now.0 self.now.1)) seqs.now) }
    {
        for seq in seqs {
            let left = self.is_seq_left(alloc, array, kind, seq)?;
            if left {
                return Ok(true);
            }
        }
        Ok(false)
    }

    /// Whether a bin has a transition left, where it is a transition bin; `array` says whether it is an element of an
    /// array. Such an element is left unless its list is one of a removing sequence. A scalar bin is left where some
    /// sequence of it has a number for each item and is none of the removing ones item by item.
    #[tactic(auto, unfolding(crate::specs::Removal::is_trans_left))]
    pub fn leaves(&self, alloc: Global, array: bool, bin: &BinInfo) -> Result<bool, Memory>
        ensures { IfOk result (λ left. left ≡ is_trans_left self.now.0 self.now.1 array bin.now) }
    {
        match &bin.rule {
            BinRule::Trans(seqs) => self.is_some_left(alloc, array, bin.kind, seqs.as_slice()),
            _ => Ok(true),
        }
    }
}
