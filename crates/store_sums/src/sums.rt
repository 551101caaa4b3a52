//! Running sums.
ghost use Rattle.std.specs.Prelude.{◌≡◌, true, map, option_map};
ghost use Rattle.std.specs.Arc.{arc_value};
ghost use Rattle.std.proofs.Props.{props};
ghost use Rattle.design_data.specs.Limits.{IsDesign-prop};
ghost use Rattle.ucis_model.specs.Nodes.{nodes_of};
ghost use Rattle.store_sums.specs.Runs.{HasMarks};

use crate::branches::Branches;
use crate::runs::Runs;
use cov_tree::Name;
use sampler::Planned;
use std::alloc::Global;
use std::sync::Arc;

/// A design with the counts of its bins and with what is out of coverage.
#[derive(Drop)]
pub struct Sums {
    pub(crate) alloc: Global,
    /// The design, with what is worked out of it once.
    pub design: Planned,
    pub(crate) branches: Branches,
    /// What is marked of each bin of the branches.
    pub(crate) runs: Runs,
    /// How often each bin was hit.
    pub counts: Vec<u64>,
    /// The path of each node that is out.
    pub out: Vec<Option<Arc<Name>>>,
    ghost nodes_are: { branches ≡ nodes_of design } by { Prim.hlevel (props, IsDesign-prop) },
    ghost marked: { HasMarks branches counts.items
        (map (λ p. option_map arc_value p) out.items) (λ bin. true) runs },
}
