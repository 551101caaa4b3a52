//! The declared bins of a cross, in order.
ghost use Rattle.std.specs.Prelude.{◌≡◌, ◌≤◌, ◌<◌, length, nat_lt, OnOk};
ghost use Rattle.cov_ground.specs.Limits.{most_bins, most_points};
ghost use Rattle.elab_base.specs.declared.fault.ElabKind.TheVariants as kinds;
ghost use Rattle.elab_base.specs.Gives.{Gives, Makes, needs};
ghost use Rattle.elab_crosses.specs.Selections.{crossed};
ghost use Rattle.elab_crosses.specs.Declarations.{with_bin, bin_declared, bins_walked};

use crate::selections::{Crossed, selection};
use const_eval::{Bound, Scope};
use cov_ground::Memory;
use cov_ground::limits::MOST_BINS;
use cov_tree::{CrossBins, List, Shared};
use cross_select::Select;
use design_data::{BinInfo, BinRule};
use elab_base::{ElabFault, ElabKind, What, add_name, check_unused, shared_guard_in};
use elab_values::{Made, kind_of};
use name_map::NameMap;
use std::alloc::Global;

/// The declared bins of a cross on the way.
#[derive(Drop)]
pub struct Walked {
    pub names: NameMap<What>,
    pub bins: List<Made>,
}

/// Refuses a bin more than a cross may have.
#[tactic(auto, unfolding(elab_base::specs::Gives::needs))]
fn check_count(have: usize, at: u32) -> Result<(), ElabFault>
    ensures gives { Gives result (needs (nat_lt have most_bins) kinds.TooManyBins at) }
    ensures few { OnOk result (have < most_bins) }
{
    if have >= MOST_BINS {
        return Err(ElabKind::TooManyBins.at(at));
    }
    Ok(())
}

fn keep_bin(
    alloc: Global,
    decl: &CrossBins,
    select: Select,
    guard: Option<Shared<Bound>>,
    walked: &mut Walked,
) -> Result<(), Memory>
    requires { length walked.old.bins < most_bins }
    ensures { OnOk result (walked.new ≡ with_bin decl.now select guard walked.old) }
{
    add_name(alloc, &mut walked.names, &decl.name, What::Bin)?;
    let place = walked.bins.as_slice().len() as u32;
    walked.bins.push(Made {
        bin: BinInfo {
            name: decl.name.share()?,
            kind: kind_of(decl.word),
            rule: BinRule::Picked(select),
            guard,
        },
        at: decl.at,
        declared: Some(place),
    })?;
    Ok(())
}

#[tactic(auto, unfolding(crate::specs::Declarations::bin_declared))]
fn add_bin(
    alloc: Global,
    scope: &Scope,
    cross: Crossed,
    decl: &CrossBins,
    walked: &mut Walked,
) -> Result<(), ElabFault>
    requires { length cross.names.now ≤ most_points }
    ensures { Makes result walked.new
        (bin_declared scope.now (crossed cross.entry.names.now cross.entry.axes.now
        cross.entry.items.now cross.entry.decls.now) decl.now walked.old) }
{
    check_unused(&walked.names, &decl.name, decl.at)?;
    let select = selection(alloc, scope, cross, &decl.sel)?;
    let guard = shared_guard_in(alloc, scope, &decl.guard)?;
    check_count(walked.bins.as_slice().len(), decl.at)?;
    keep_bin(alloc, decl, select, guard, walked)?;
    Ok(())
}

/// All bins that are declared.
#[tactic(auto, unfolding(crate::specs::Declarations::bins_walked))]
pub(crate) fn walk_bins(
    alloc: Global,
    scope: &Scope,
    cross: Crossed,
    decls: &[CrossBins],
) -> Result<Walked, ElabFault>
    requires { length cross.names.now ≤ most_points }
    ensures { Gives result
        (bins_walked scope.now (crossed cross.entry.names.now cross.entry.axes.now
        cross.entry.items.now cross.entry.decls.now) decls.now) }
{
    let mut walked = Walked {
        names: NameMap::new(alloc),
        bins: List::new(alloc),
    };
    for decl in decls {
        add_bin(alloc, scope, cross, decl, &mut walked)?;
    }
    Ok(walked)
}
