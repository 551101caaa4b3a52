//! The design of a text.
ghost use Rattle.std.specs.Prelude.{◌≡◌, IfOk, Ok};
ghost use Rattle.elab_base.specs.Gives.{Gives};
ghost use Rattle.cov_design.specs.Walk.{walked};
ghost use Rattle.cov_design.specs.Elaboration.{parts_of, parts_known, Elaborates, GivesDesign};
ghost use Rattle.cov_design.specs.Invariant.{IsKnown};

use crate::known::Known;
use crate::walk::walk_all;
use cov_ground::Memory;
use cov_tree::{Decl, DesignText};
use design_data::Design;
use elab_base::ElabFault;
use elab_decls::Outside;
use elab_order::number;
use std::alloc::Global;

/// What a text declares, within all limits.
fn known_of(alloc: Global, text: &[Decl]) -> Result<Known, ElabFault>
    ensures gives { Gives result (walked text.now) }
    ensures known { IfOk result IsKnown }
{
    let known = walk_all(alloc, text)?;
    Ok(known)
}

/// The design of what was declared.
#[tactic(auto, using(crate::proofs::Designs::design_is))]
fn design_of(alloc: Global, known: Known) -> Result<Design, Memory>
    requires { IsKnown known }
    ensures { IfOk result (λ design. parts_of design ≡ parts_known known) }
{
    let Known {
        outside,
        groups,
        instances,
        counts,
    } = known;
    let Outside {
        names: _,
        scope: _,
        enumerations: _,
        signals,
    } = outside;
    let instances = number(alloc, instances)?;
    Ok(Design::of(signals, groups, instances, counts.bins))
}

/// The design that a text declares (IEEE 1800-2017, clause 19), or the first fault on the walk through it: through its
/// declarations in text order, and through a group's body at each of its instances.
#[tactic(auto, unfolding(crate::specs::Elaboration::Elaborates))]
pub fn elaborate(alloc: Global, text: &DesignText) -> Result<Design, ElabFault>
    ensures { GivesDesign result (Elaborates text.now) }
{
    let known = known_of(alloc, text.decls.as_slice())?;
    let design = design_of(alloc, known)?;
    Ok(design)
}
