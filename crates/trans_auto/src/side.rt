//! Sequences with the cells that they have in a mask.
ghost use Rattle.std.specs.Prelude.{◌≡◌, ℕ, Option, ℤ, ◌≤◌, ◌↔◌, IfOk, IsTrue, Bool, false, []};
ghost use Rattle.cov_ground.specs.Limits.{most_cells};
ghost use Rattle.trans_seq.specs.Cells.{cells_of_seqs};
ghost use Rattle.trans_seq.specs.Windows.{SomeHasWord};
ghost use Rattle.trans_auto.specs.Steps.{SeqsStep, SomeAccepts};
ghost use Rattle.trans_auto.specs.Layout.{SeqsInside};

use crate::marks::{ItemCells, Mark, lay_seqs, mark_seqs};
use crate::steps::{Masks, moved, seqs_accept, seqs_enter, seqs_inside};
use cov_base::{Int, Memory};
use cov_tree::List;
use std::alloc::Global;
use std::marker::Model;
use trans_seq::{Seq, append_copies};

/// The sequences of one side of an automaton. Contracts see them alone.
#[derive(Drop)]
pub(crate) struct Side {
    seqs: Vec<Seq>,
    cells: Vec<List<ItemCells>>,
    masks: Masks,
}

impl Model for Side {
    ghost use Rattle.std.specs.Prelude.{List, ◌≤◌};
    ghost use Rattle.trans_seq.specs.declared.seq.Seq.{Seq};
    ghost use Rattle.cov_ground.specs.Limits.{most_cells};
    ghost use Rattle.trans_seq.specs.Cells.{cells_of_seqs};
    ghost use Rattle.trans_auto.specs.Layout.{SeqsLaid, MasksLaid};

    ghost Value = { List Seq };

    ghost view = { λ s. s.seqs.items };

    ghost invariant = { λ s. (cells_of_seqs s.seqs.items ≤ most_cells) × SeqsLaid 0 s.seqs.items s.cells.items × MasksLaid s.seqs.items s.masks };
}

fn copied_seqs(alloc: Global, seqs: &[Seq]) -> Result<Vec<Seq>, Memory>
    ensures { IfOk result (λ copies. copies.items ≡ seqs.now) }
{
    let mut copies = Vec::new(alloc);
    append_copies(alloc, seqs, &mut copies)?;
    Ok(copies)
}

impl Side {
    /// The side of these sequences.
    pub(crate) fn new(alloc: Global, seqs: &[Seq]) -> Result<Side, Memory>
        requires { cells_of_seqs seqs.now ≤ most_cells }
        ensures { IfOk result (λ side. side ≡ seqs.now) }
    {
        let mut cells = Vec::new(alloc);
        lay_seqs(alloc, seqs, 0, &mut cells)?;
        let masks = Masks {
            runs: mark_seqs(Mark::Run, seqs, 0, 0),
            gaps: mark_seqs(Mark::Gap, seqs, 0, 0),
            ends: mark_seqs(Mark::End, seqs, 0, 0),
            later: mark_seqs(Mark::Later, seqs, 0, 0),
        };
        Ok(Side {
            seqs: copied_seqs(alloc, seqs)?,
            cells,
            masks,
        })
    }

    pub(crate) fn allocator(&self) -> Global {
        *self.seqs.allocator()
    }

    /// Whether there are no sequences.
    #[inline(always)]
    pub(crate) fn is_empty(&self) -> bool
        ensures { IsTrue result → self.now ≡ [] }
    {
        self.seqs.is_empty()
    }

    /// The cells of the items that the sample is inside.
    pub(crate) fn inside(&self, sample: &Option<Int>) -> u128
        ensures { SeqsInside 0 result sample.now self.now }
    {
        seqs_inside(&self.seqs, &self.cells, sample, 0)
    }

    /// The cells after a sample, of which `inside` says where it is inside, from the cells `old` before it.
    pub(crate) fn step(&self, inside: u128, fresh: bool, old: u128) -> u128
        ensures { (v : Option ℤ) → SeqsInside 0 inside v self.now → SeqsStep fresh 0 old result v self.now }
    {
        let enters = seqs_enter(&self.cells, old, fresh, 0);
        moved(&self.masks, inside, enters, old)
    }

    /// Whether a sequence is complete; `fresh` says whether no sample was taken.
    pub(crate) fn accepts(&self, mask: u128, fresh: bool) -> bool
        ensures { SomeAccepts fresh 0 mask self.now result }
    {
        seqs_accept(&self.cells, mask, fresh, false)
    }

    /// Whether the list of known values is a list of one of the sequences.
    pub(crate) fn has(&self, list: &[Int]) -> bool
        ensures { IsTrue result ↔ SomeHasWord self.now list.now }
    {
        let mut mask = 0;
        for (k, value) in list.iter().enumerate() {
            let inside = self.inside(&Some(*value));
            mask = self.step(inside, k == 0, mask);
        }
        self.accepts(mask, list.is_empty())
    }
}
