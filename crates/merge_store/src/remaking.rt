//! What a store keeps of another design.
ghost use Rattle.std.specs.Prelude.{◌≡◌, map, filter, option_map, is_some, true, IfOk};
ghost use Rattle.std.specs.Arc.{arc_value};
ghost use Rattle.ucis_model.specs.Nodes.{nodes_of};
ghost use Rattle.ucis_model.specs.Paths.{find_in};
ghost use Rattle.cov_history.specs.Sums.{all_hits};
ghost use Rattle.store_parts.specs.Keeps.{HasOut};
ghost use Rattle.merge_store.specs.Now.{outs_now};
ghost use Rattle.store_parts.specs.Remakes.{IsRemade};
ghost use Rattle.store_sums.specs.Runs.{HasMarks};
ghost use Rattle.merge_store.specs.Stores.{entries_of};

use crate::Store;
use cov_base::Memory;
use cov_tree::Name;
use std::sync::Arc;
use store_core::Rebinned;
use store_parts::{Remade, put_found};
use store_sums::{Branches, marks_of, nothing_out};

impl Store {
    /// What is out, at the nodes of another design, and how many paths that is.
    fn out_in(&self, branches: &Branches) -> Result<(Vec<Option<Arc<Name>>>, u64), Memory>
        ensures { IfOk result (λ r. HasOut branches.now (filter (λ p. is_some (find_in branches.now p)) (outs_now self.now)) (map (λ p. option_map arc_value p) r.0.items) r.1) }
    {
        let mut out = nothing_out(self.alloc, branches.len())?;
        let mut outs = 0;
        for path in &self.sums.out {
            outs += put_found(branches, path, &mut out)?;
        }
        Ok((out, outs))
    }

    /// What is out at the nodes of another design, and what is marked of its bins with their counts.
    pub(crate) fn remade(&self, rebinned: &Rebinned) -> Result<Remade, Memory>
        ensures is { IfOk result (λ r. IsRemade (entries_of self.now) rebinned.now.design
            (map (λ p. option_map arc_value p) r.out.items) r.outs) }
        ensures marked { IfOk result (λ r. HasMarks (nodes_of rebinned.now.design)
            (all_hits rebinned.now.design rebinned.now.records)
            (map (λ p. option_map arc_value p) r.out.items) (λ bin. true) r.runs) }
    {
        let branches = rebinned.branches();
        let (out, outs) = self.out_in(branches)?;
        let runs = marks_of(self.alloc, branches, rebinned.counts(), out.as_slice())?;
        Ok(Remade { runs, out, outs })
    }
}
