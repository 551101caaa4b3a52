//! What is worked out of a design once.
ghost use Rattle.std.specs.Prelude.{◌≡◌, IfOk};

use cov_base::Memory;
use cov_tree::{List, Shared};
use cross_sampler::CrossPlan;
use point_sampler::PointPlan;

/// What is worked out of a design once. It serves any number of records, and threads share it.
pub struct Plan {
    /// One for each instance.
    pub instances: List<InstPlan>,
}

impl Drop for Plan {
    fn drop(self) {
        let Plan { instances: _ } = self;
    }
}

/// What is worked out of an instance. It stands once in memory for instances of a group whose items are alike.
pub struct InstPlan {
    /// One for each item.
    pub items: Shared<List<ItemPlan>>,
}

impl Drop for InstPlan {
    fn drop(self) {
        let InstPlan { items: _ } = self;
    }
}

/// What is worked out of an item. It stands once in memory for items that are alike in several instances of a group.
#[derive(Drop)]
pub enum ItemPlan {
    Point(Shared<PointPlan>),
    Cross(Shared<CrossPlan>),
}

impl ItemPlan {
    /// The same plan for a further item. It copies nothing.
    pub(crate) fn share(&self) -> Result<ItemPlan, Memory>
        ensures { IfOk result (λ plan. plan ≡ self.now) }
    {
        match self {
            ItemPlan::Point(plan) => Ok(ItemPlan::Point(plan.share()?)),
            ItemPlan::Cross(plan) => Ok(ItemPlan::Cross(plan.share()?)),
        }
    }
}
