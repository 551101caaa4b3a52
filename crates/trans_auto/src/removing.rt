//! The sequences that take windows away from the bins of a point.
ghost use Rattle.std.specs.Prelude.{◌≡◌, ◌↔◌, ℕ, ℤ, ◌≤◌, ◌<◌, min, [], nat_eq, IsTrue, IsOk, IfOk, IsOkUnless, Option, None, Err, false};
ghost use Rattle.std.specs.HashMap.{get};
ghost use Rattle.cov_ground.specs.Limits.{most_cells};
ghost use Rattle.trans_seq.specs.Cells.{cells_of_seqs as cells_of};
ghost use Rattle.trans_seq.specs.Windows.{SomeHasWord};
ghost use Rattle.trans_auto.specs.Steps.{SeqsStep};
ghost use Rattle.trans_auto.specs.Removing.{IsStep};

use crate::fault::AutoFault;
use crate::side::Side;
use cov_base::Int;
use cov_ground::limits::MOST_CELLS;
use std::alloc::Global;
use std::collections::HashMap;
use std::marker::Model;
use trans_seq::{Seq, cells_of_seqs};

/// The sequences that take windows away, of the ignored and the illegal transitions of a point (IEEE 1800-2017, 19.5.5,
/// 19.5.6). All bins of the point share them.
pub struct Removing {
    pub(crate) side: Side,
}

impl Drop for Removing {
    fn drop(self) {
        let Removing { side: _ } = self;
    }
}

impl Model for Removing {
    ghost use Rattle.std.specs.Prelude.{List};
    ghost use Rattle.trans_seq.specs.declared.seq.Seq.{Seq};

    ghost Value = { List Seq };

    ghost view = { λ r. r.side };
}

/// What one sample does to the removing sequences: it is asked of each of their sets once, and each mask of their cells
/// that some bin's run has is moved once.
#[derive(Drop)]
pub struct Step {
    /// The cells of the items that the sample is inside.
    inside: u128,
    /// The cells that a window reaches that begins with the sample.
    begun: u128,
    /// The masks that were moved, and what became of them.
    moves: HashMap<u128, u128>,
    /// Whether masks that are moved are kept.
    keeps: bool,
}

impl Removing {
    /// The removing sequences, which may have `MOST_CELLS` cells together.
    pub fn new(alloc: Global, seqs: &[Seq]) -> Result<Removing, AutoFault>
        ensures made { IfOk result (λ removing. removing ≡ seqs.now) }
        ensures fits { IsOk result → cells_of seqs.now ≤ most_cells }
        ensures otherwise_memory { cells_of seqs.now ≤ most_cells
            → IsOkUnless result AutoFault.Memory }
        ensures too_long { most_cells < cells_of seqs.now
            → result ≡ Err (AutoFault.TooLong (min (cells_of seqs.now) u64.MAX)) }
    {
        let cells = cells_of_seqs(seqs);
        if cells > MOST_CELLS {
            return Err(AutoFault::TooLong { cells });
        }
        Ok(Removing {
            side: Side::new(alloc, seqs)?,
        })
    }

    /// What the sample does, at the beginning of the sample. It takes no memory; what a later `push` takes for the masks
    /// that it moves is kept from sample to sample.
    pub fn begin(&self, step: &mut Step, sample: Option<Int>)
        ensures { IsStep self.now sample step.new }
    {
        if self.side.is_empty() {
            step.rest();
            return;
        }
        step.inside = self.side.inside(&sample);
        step.begun = self.side.step(step.inside, true, 0);
        step.forget();
    }

    /// Whether the list of known values is a list of one of the sequences. Its time grows with the length of the list
    /// alone.
    pub fn removes(&self, list: &[Int]) -> bool
        ensures { IsTrue result ↔ SomeHasWord self.now list.now }
    {
        self.side.has(list)
    }
}

impl Step {
    /// A step that belongs to no sample yet. It takes no memory.
    pub fn new(alloc: Global) -> Step {
        Step {
            inside: 0,
            begun: 0,
            moves: HashMap::new(alloc),
            keeps: true,
        }
    }

    /// What the sample does to these sequences, for one bin alone, whose runs are moved one by one.
    pub(crate) fn once(alloc: Global, removed: &Side, sample: &Option<Int>) -> Step
        ensures { IsStep removed.now sample.now result }
    {
        let inside = removed.inside(sample);
        Step {
            inside,
            begun: removed.step(inside, true, 0),
            moves: HashMap::new(alloc),
            keeps: false,
        }
    }

    /// What any sample does where nothing takes windows away.
    #[inline(always)]
    fn rest(&mut self)
        ensures { (v : Option ℤ) → IsStep [] v self.new }
    {
        self.inside = 0;
        self.begun = 0;
        self.forget();
    }

    /// Forgets the masks that were moved.
    #[inline(always)]
    fn forget(&mut self)
        ensures inside { self.new.inside ≡ self.old.inside }
        ensures begun { self.new.begun ≡ self.old.begun }
        ensures moves { (old : ℕ) → get nat_eq self.new.moves old ≡ None }
    {
        if !self.moves.is_empty() {
            self.moves.clear();
        }
    }

    /// The cells that a window reaches that begins with the sample.
    pub(crate) fn begun(&self) -> u128
        ensures { result ≡ self.now.begun }
    {
        self.begun
    }

    /// What becomes of a mask.
    pub(crate) fn moved(&mut self, removed: &Side, old: u128) -> u128
        ensures is { (v : Option ℤ) → IsStep removed.now v self.old → SeqsStep false 0 old result v removed.now }
        ensures kept { (v : Option ℤ) → IsStep removed.now v self.old → IsStep removed.now v self.new }
    {
        if old == 0 {
            return 0;
        }
        if let Some(new) = self.moves.get(&old) {
            return *new;
        }
        let new = removed.step(self.inside, false, old);
        if self.keeps {
            let _ = self.moves.insert(old, new);
        }
        new
    }
}
