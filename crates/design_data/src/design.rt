//! A design.
ghost use Rattle.std.specs.Prelude.{◌≡◌};
ghost use Rattle.design_data.specs.Limits.{IsDesign, IsDesign-prop};

use crate::testing::is_design;
use crate::{GroupInfo, InstInfo, Signal};
use cov_ground::Memory;
use cov_tree::List;
use std::alloc::Global;

/// A design. It is always within its limits: whoever makes one shows them.
pub struct Design {
    pub signals: List<Signal>,
    pub groups: List<GroupInfo>,
    pub instances: List<InstInfo>,
    pub bin_count: u32,
    pub ghost within: { IsDesign signals groups instances bin_count } by { IsDesign-prop signals groups instances bin_count },
}

impl Drop for Design {
    fn drop(self) {
        let Design {
            signals: _,
            groups: _,
            instances: _,
            bin_count: _,
        } = self;
    }
}

impl Design {
    ghost use Rattle.std.specs.Prelude.{◌≡◌, IfOk};
    ghost use Rattle.design_data.specs.Limits.{IsDesign};
    ghost use Rattle.design_data.specs.Testing.{IsTested};

    /// The design of these parts, of which the caller knows that they are one. It tests nothing and takes no memory.
    pub fn of(
        signals: List<Signal>,
        groups: List<GroupInfo>,
        instances: List<InstInfo>,
        bin_count: u32,
    ) -> Design
        requires { IsDesign signals groups instances bin_count }
        ensures signals { result.signals ≡ signals }
        ensures groups { result.groups ≡ groups }
        ensures instances { result.instances ≡ instances }
        ensures bin_count { result.bin_count ≡ bin_count }
    {
        Design {
            signals,
            groups,
            instances,
            bin_count,
        }
    }

    /// The design of these parts, if they are one: exactly where all limits hold, each index is one, each bin has
    /// something left, and the bins are numbered from 0 without a gap. All products of a cross with declared bins are
    /// tried, and the instances, 1,024 at most, are looked through for each group; else it takes linear time.
    pub fn tested(
        alloc: Global,
        signals: List<Signal>,
        groups: List<GroupInfo>,
        instances: List<InstInfo>,
        bin_count: u32,
    ) -> Result<Option<Design>, Memory>
        ensures { IfOk result (IsTested signals groups instances bin_count) }
    {
        let is_design = is_design(
            alloc,
            signals.as_slice(),
            groups.as_slice(),
            instances.as_slice(),
            bin_count,
        )?;
        if !is_design {
            return Ok(None);
        }
        Ok(Some(Design::of(signals, groups, instances, bin_count)))
    }

    /// The signals, in order of declaration.
    pub fn signals(&self) -> &[Signal]
        ensures { result.now ≡ self.now.signals }
    {
        self.signals.as_slice()
    }

    /// The groups, in order of declaration, those without instances too.
    pub fn groups(&self) -> &[GroupInfo]
        ensures { result.now ≡ self.now.groups }
    {
        self.groups.as_slice()
    }

    /// The instances, in order of declaration.
    pub fn instances(&self) -> &[InstInfo]
        ensures { result.now ≡ self.now.instances }
    {
        self.instances.as_slice()
    }

    /// How many bins it has. Their numbers are those below this.
    pub fn bin_count(&self) -> u32
        ensures { result ≡ self.now.bin_count }
    {
        self.bin_count
    }
}
