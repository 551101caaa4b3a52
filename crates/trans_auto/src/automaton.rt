//! The automaton of a transition bin that shares its removing sequences with no other bin.
ghost use Rattle.std.specs.Prelude.{◌≡◌, List, ℤ, Option, [], min, ◌<◌, ◌≤◌, IsOk, IfOk, OnOk, OnErr, IsOkUnless, Err};
ghost use Rattle.cov_ground.specs.Limits.{most_cells};
ghost use Rattle.trans_seq.specs.Cells.{cells_of_seqs as cells_of};
ghost use Rattle.trans_auto.specs.State.{Stands, SaysKept, TakesSample};

use crate::fault::AutoFault;
use crate::removing::Step;
use crate::runs::push_runs;
use crate::side::Side;
use crate::state::TransState;
use cov_base::{Int, Memory};
use cov_ground::limits::MOST_CELLS;
use std::alloc::Global;
use std::marker::Model;
use trans_seq::{Seq, cells_of_seqs};

/// The automaton of a bin's own sequences, and of those that remove windows from it.
pub struct Automaton {
    own: Side,
    removed: Side,
}

impl Drop for Automaton {
    fn drop(self) {
        let Automaton { own: _, removed: _ } = self;
    }
}

impl Model for Automaton {
    ghost use Rattle.std.specs.Prelude.{List};
    ghost use Rattle.trans_seq.specs.declared.seq.Seq.{Seq};

    ghost Value = { List Seq × List Seq };

    ghost view = { λ a. (a.own, a.removed) };
}

impl Automaton {
    /// The automaton of the own sequences and of the removing ones. Each side may have `MOST_CELLS` cells together.
    pub fn new(alloc: Global, own: &[Seq], removed: &[Seq]) -> Result<Automaton, AutoFault>
        ensures made { IfOk result (λ a. a ≡ (own.now, removed.now)) }
        ensures fits { IsOk result
            → (cells_of own.now ≤ most_cells) × (cells_of removed.now ≤ most_cells) }
        ensures otherwise_memory { (cells_of own.now ≤ most_cells)
            × (cells_of removed.now ≤ most_cells) → IsOkUnless result AutoFault.Memory }
        ensures own_first { most_cells < cells_of own.now
            → result ≡ Err (AutoFault.TooLong (min (cells_of own.now) u64.MAX)) }
        ensures removed_then { cells_of own.now ≤ most_cells → most_cells < cells_of removed.now
            → result ≡ Err (AutoFault.TooLong (min (cells_of removed.now) u64.MAX)) }
    {
        let own_cells = cells_of_seqs(own);
        if own_cells > MOST_CELLS {
            return Err(AutoFault::TooLong { cells: own_cells });
        }
        let removed_cells = cells_of_seqs(removed);
        if removed_cells > MOST_CELLS {
            return Err(AutoFault::TooLong {
                cells: removed_cells,
            });
        }
        Ok(Automaton {
            own: Side::new(alloc, own)?,
            removed: Side::new(alloc, removed)?,
        })
    }

    /// The state before the first sample of a trace. It has no runs, and takes no memory.
    pub fn start(&self) -> TransState
        ensures none { result ≡ [] }
        ensures stands { Stands self.now.0 self.now.1 result [] }
    {
        TransState {
            runs: Vec::new(self.own.allocator()),
        }
    }

    /// Takes the state over the next sample of the trace, and says whether a window that ends there counts: it is a
    /// list of an own sequence and of no removing one. A sample costs at most n log n in the number n of runs, and
    /// takes memory only where it begins a run and the room for runs is used up. After want of memory the state is
    /// as before.
    pub fn push(&self, state: &mut TransState, sample: Option<Int>) -> Result<bool, Memory>
        ensures answer { IfOk result
            (λ answer. SaysKept self.now.0 self.now.1 state.old sample answer) }
        ensures stands { OnOk result
            (TakesSample self.now.0 self.now.1 state.old sample state.new) }
        ensures memory { OnErr result (state.new ≡ state.old) }
    {
        let mut step = Step::once(self.own.allocator(), &self.removed, &sample);
        let answer = push_runs(
            &self.own,
            &self.removed,
            &mut step,
            &sample,
            &mut state.runs,
        )?;
        Ok(answer.counts)
    }
}
