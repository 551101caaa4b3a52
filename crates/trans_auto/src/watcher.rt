//! The automaton of a bin of a point.
ghost use Rattle.std.specs.Prelude.{◌≡◌, ℤ, List, [], ◌≤◌, ◌<◌, min, Option, IsOk, IfOk, OnOk, OnErr, IsOkUnless, Err};
ghost use Rattle.cov_ground.specs.Limits.{most_cells};
ghost use Rattle.trans_seq.specs.declared.seq.Seq.{Seq};
ghost use Rattle.trans_seq.specs.Cells.{cells_of_seqs as cells_of};
ghost use Rattle.trans_auto.specs.State.{Stands, SaysKept, SaysWindow, TakesSample};
ghost use Rattle.trans_auto.specs.Removing.{IsStep};

use crate::fault::AutoFault;
use crate::removing::{Removing, Step};
use crate::runs::push_runs;
use crate::side::Side;
use crate::state::TransState;
use cov_base::{Int, Memory};
use cov_ground::limits::MOST_CELLS;
use std::alloc::Global;
use std::marker::Model;
use trans_seq::{Seq, cells_of_seqs};

/// The automaton of a bin's own sequences.
pub struct Watcher {
    own: Side,
}

impl Drop for Watcher {
    fn drop(self) {
        let Watcher { own: _ } = self;
    }
}

impl Model for Watcher {
    ghost use Rattle.std.specs.Prelude.{List};
    ghost use Rattle.trans_seq.specs.declared.seq.Seq.{Seq};

    ghost Value = { List Seq };

    ghost view = { λ w. w.own };
}

/// What a sample says of a bin's windows.
#[derive(Clone, Copy, PartialEq, Eq)]
pub struct Answer {
    /// Whether a window that ends with the sample counts: it is a list of an own sequence and of no removing one.
    pub counts: bool,
    /// Whether a window that is a list of an own sequence ends with the sample, removed or not.
    pub ends: bool,
}

impl Watcher {
    /// The automaton of the own sequences, which may have `MOST_CELLS` cells together.
    pub fn new(alloc: Global, own: &[Seq]) -> Result<Watcher, AutoFault>
        ensures made { IfOk result (λ watcher. watcher ≡ own.now) }
        ensures fits { IsOk result → cells_of own.now ≤ most_cells }
        ensures otherwise_memory { cells_of own.now ≤ most_cells
            → IsOkUnless result AutoFault.Memory }
        ensures too_long { most_cells < cells_of own.now
            → result ≡ Err (AutoFault.TooLong (min (cells_of own.now) u64.MAX)) }
    {
        let cells = cells_of_seqs(own);
        if cells > MOST_CELLS {
            return Err(AutoFault::TooLong { cells });
        }
        Ok(Watcher {
            own: Side::new(alloc, own)?,
        })
    }

    /// The state before the first sample of a trace. It has no runs, and takes no memory.
    pub fn start(&self) -> TransState
        ensures none { result ≡ [] }
        ensures stands { (removed : List Seq) → Stands self.now removed result [] }
    {
        TransState {
            runs: Vec::new(self.own.allocator()),
        }
    }

    /// Takes the state over the next sample of the trace, and says whether a window that ends there counts, and whether
    /// one ends there at all. `step` is what `removing` says of the sample; it is shared by all bins of the point. A
    /// sample costs at most n log n in the number n of runs, and takes memory only where it begins a run and the room for
    /// runs is used up, or where a mask of removing cells is new. After want of memory the state is as before; only
    /// for a run that begins does the want of memory count.
    pub fn push(
        &self,
        removing: &Removing,
        step: &mut Step,
        state: &mut TransState,
        sample: Option<Int>,
    ) -> Result<Answer, Memory>
        requires { IsStep removing.now sample step.old }
        ensures step { IsStep removing.now sample step.new }
        ensures counts { IfOk result
            (λ answer. SaysKept self.now removing.now state.old sample answer.counts) }
        ensures ends { IfOk result
            (λ answer. SaysWindow self.now removing.now state.old sample answer.ends) }
        ensures stands { OnOk result
            (TakesSample self.now removing.now state.old sample state.new) }
        ensures memory { OnErr result (state.new ≡ state.old) }
    {
        push_runs(&self.own, &removing.side, step, &sample, &mut state.runs)
    }
}
