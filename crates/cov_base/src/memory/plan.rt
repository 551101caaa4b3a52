//! Which calls are to fail.
ghost use Rattle.std.specs.Prelude.{◌≡◌, ◌≤◌, is_err};
ghost use Rattle.cov_spec.specs.Causes.{HasCause};
ghost use Rattle.cov_base.specs.Plan.{planned, called, is_due, one_more};

use crate::Failed;
use std::marker::Model;

/// The calls so far, which calls are to fail, and how many did.
#[derive(Drop)]
pub(crate) struct Failing {
    calls: u64,
    failing: Vec<u64>,
    faults: u64,
}

impl Model for Failing {
    ghost use Rattle.cov_base.specs.Plan.{Plan};

    ghost Value = { Plan };

    ghost view = { λ f. record { calls = f.calls; failing = f.failing.items; faults = f.faults } };
}

impl Failing {
    pub(crate) fn new(failing: Vec<u64>) -> Self
        ensures { result ≡ planned failing.items }
    {
        Failing {
            calls: 0,
            failing,
            faults: 0,
        }
    }

    /// Counts a failure.
    pub(crate) fn fail(&mut self) -> Failed
        ensures plan { self.new ≡ record self.old { faults = one_more self.old.faults } }
        ensures later { self.old.faults ≤ self.new.faults }
    {
        self.faults = self.faults.saturating_add(1);
        Failed
    }

    /// Counts a call, which fails where the plan has its number.
    pub(crate) fn call(&mut self) -> Result<(), Failed>
        ensures plan { self.new ≡ called self.old }
        ensures due { is_err result ≡ is_due self.old }
        ensures cause { HasCause self.old.faults self.new.faults result }
    {
        let is_due = self.failing.contains(&self.calls);
        self.calls = self.calls.saturating_add(1);
        if is_due { Err(self.fail()) } else { Ok(()) }
    }
}
