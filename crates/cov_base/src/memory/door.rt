//! A door in memory.
ghost use Rattle.std.specs.Prelude.{◌≡◌, IfOk, OnErr};
ghost use Rattle.cov_spec.specs.Causes.{HasCause};
ghost use Rattle.cov_base.specs.Memory.{HandsOut, HandsOutNone};
ghost use Rattle.cov_base.specs.Plan.{planned, answered, one_more_at_ok};

use crate::memory::plan::Failing;
use crate::{Door, Failed, MemLink};
use std::marker::Model;
use std::vec::IntoIter;

/// Hands out links at hand in order, where some calls fail. A call fails too where no link is left.
#[derive(Drop)]
pub struct MemDoor {
    links: IntoIter<MemLink>,
    handed: u64,
    plan: Failing,
}

impl Model for MemDoor {
    ghost use Rattle.std.specs.Vec.Iter.{into_iter_items};
    ghost use Rattle.cov_base.specs.Memory.{PlannedLinks};

    ghost Value = { PlannedLinks };

    ghost view = { λ door. record { links = into_iter_items door.links; handed = door.handed; plan = door.plan } };
}

impl MemDoor {
    /// A door to these links that fails at the calls of these numbers, the first call being 0.
    pub fn new(links: Vec<MemLink>, failing: Vec<u64>) -> Self
        ensures { result ≡
            record { links = links.items; handed = 0; plan = planned failing.items } }
    {
        MemDoor {
            links: links.into_iter(),
            handed: 0,
            plan: Failing::new(failing),
        }
    }
}

impl Door for MemDoor {
    type Wire = MemLink;

    ghost handed = { λ door. door.handed };

    ghost faults = { λ door. door.plan.faults };

    fn accept(&mut self) -> Result<MemLink, Failed>
        ensures handed { self.new.handed ≡ one_more_at_ok result self.old.handed }
        ensures cause { HasCause self.old.plan.faults self.new.plan.faults result }
        ensures plan { self.new.plan ≡ answered result self.old.plan }
        ensures link { IfOk result (λ link. HandsOut self.old link self.new) }
        ensures failed { OnErr result (HandsOutNone self.old self.new) }
    {
        self.plan.call()?;
        match self.links.next() {
            Some(link) => {
                self.handed = self.handed.saturating_add(1);
                Ok(link)
            }
            None => Err(self.plan.fail()),
        }
    }
}
