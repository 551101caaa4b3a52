//! A store over a design that takes the records of a command in.
ghost use Rattle.std.specs.Prelude.{◌≡◌, ◌≤◌, [], IfOk};
ghost use Rattle.std.specs.Arc.{arc_value};
ghost use Rattle.merge_store.specs.Stores.{entries_of};
ghost use Rattle.covd_filling.specs.Steps.{IsPlain, IsStored};
ghost use Rattle.covd_commands.specs.Options.{options_in};
ghost use Rattle.covd_commands.specs.Origins.{origins_of};

use crate::filling::{Terms, fill};
use crate::leaving::Left;
use cov_base::{Memory, Shelf};
use covd_commands::options::Options;
use covd_commands::origins::Origins;
use covd_commands::stop::Stop;
use design_data::Design;
use merge_store::Store;
use sampler::Planned;
use std::alloc::Global;
use std::sync::Arc;
use std::thread::Threads;

/// A design with its plan, and a store over it without entries.
fn opened(alloc: Global, design: &Arc<Design>) -> Result<(Planned, Store), Memory>
    ensures design { IfOk result (λ parts. parts.0 ≡ arc_value design.now) }
    ensures plain { IfOk result (λ parts. IsPlain (arc_value design.now) parts.1) }
    ensures fresh { IfOk result (λ parts. entries_of parts.1 ≡ []) }
{
    let shared = design.clone()?;
    let store = Store::new(alloc, shared)?;
    let planned = store.planned().share()?;
    Ok((planned, store))
}

/// A store over the design that took the records that come from there in, with the lines of those that were left out as the
/// options ask; or why the first that isn't taken in is none.
///
/// # Errors
/// The status and the line of the first record that can't be taken in, unless such are left out; want of memory.
pub fn stored<R: Threads + Sync, F: Shelf>(
    rt: &R,
    alloc: Global,
    options: Options,
    design: &Arc<Design>,
    origins: Origins,
    shelf: &mut F,
) -> Result<(Store, Left), Stop>
    ensures same { F.files shelf.new ≡ F.files shelf.old }
    ensures later { F.faults shelf.old ≤ F.faults shelf.new }
    ensures stored { IsStored (options_in options.entry) (F.files shelf.old) (F.faults shelf.old) (F.faults shelf.new)
        (arc_value design.now) (origins_of origins.entry) result }
{
    let (planned, mut store) = opened(alloc, design)?;
    let terms = Terms {
        design: planned.design(),
        plan: planned.plan(),
        passed: options.passed,
    };
    let left = fill(rt, alloc, options, terms, &mut store, origins, shelf)?;
    Ok((store, left))
}
