//! A design with what is worked out of it.
ghost use Rattle.std.specs.Prelude.{◌≡◌, IfOk};
ghost use Rattle.std.specs.Arc.{arc_value};
ghost use Rattle.sampler_plans.specs.Plans.{IsDesignPlan};

use crate::prepared::{Prepared, prepare_under};
use cov_base::{Gate, Memory};
use design_data::Design;
use record_codec::Record;
use sampler_plans::Plan;
use std::alloc::Global;
use std::marker::Model;
use std::sync::Arc;

/// A design with what is worked out of it once. It stands where the design is kept, and serves all records that are
/// prepared under the design, in any threads. Contracts see the design.
pub struct Planned {
    design: Arc<Design>,
    plan: Arc<Plan>,
}

impl Drop for Planned {
    fn drop(self) {
        let Planned { design: _, plan: _ } = self;
    }
}

impl Model for Planned {
    ghost use Rattle.std.specs.Arc.{arc_value};
    ghost use Rattle.design_data.specs.declared.design.Design.{Design};
    ghost use Rattle.design_data.specs.contracts.design.Design as design_type;
    ghost use Rattle.sampler_plans.specs.Plans.{IsDesignPlan};

    ghost Value = { Design };

    ghost coded = { design_type.the_row.coded };

    ghost view = { λ p. arc_value p.design };

    ghost invariant = { λ p. IsDesignPlan (arc_value p.design).instances (arc_value p.plan) };
}

impl Planned {
    /// The design with its plan, which is made here.
    pub fn of(alloc: Global, design: &Arc<Design>) -> Result<Planned, Memory>
        ensures { IfOk result (λ planned. planned ≡ arc_value design.now) }
    {
        let plan = Plan::of(alloc, design)?;
        let plan = Arc::new(alloc, plan)?;
        let design = design.clone()?;
        Ok(Planned { design, plan })
    }

    /// The same once more. Nothing is copied.
    pub fn share(&self) -> Result<Planned, Memory>
        ensures { IfOk result (λ planned. planned ≡ self.now) }
    {
        let design = self.design.clone()?;
        let plan = self.plan.clone()?;
        Ok(Planned { design, plan })
    }

    /// The design.
    pub fn design(&self) -> &Arc<Design>
        ensures { arc_value result.now ≡ self.now }
    {
        &self.design
    }

    /// Its plan.
    pub fn plan(&self) -> &Plan
        ensures { IsDesignPlan self.now.instances result.now }
    {
        &self.plan
    }

    /// The record with its encoding and its tally under the design. The gate is passed at place 1 before the record is
    /// binned and at place 2 after it.
    pub fn prepare<G: Gate>(&self, alloc: Global, rec: Record, gate: &G) -> Result<Prepared, Memory>
        ensures design { IfOk result (λ p. p.under ≡ self.now) }
        ensures of { IfOk result (λ p. p.of ≡ rec) }
    {
        prepare_under(alloc, &self.plan, &self.design, rec, gate)
    }
}
