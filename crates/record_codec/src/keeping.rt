//! Events that are kept.
ghost use Rattle.std.specs.Prelude.{◌≡◌, ◌++◌, ◌∷◌, [], OnOk, OnErr, if◌then◌else◌};

use crate::Event;
use std::alloc::AllocFailed;

/// Puts the event behind the others where it is wanted.
pub(crate) fn keep(
    kept: &mut Vec<Event>,
    is_wanted: bool,
    event: Event,
) -> Result<(), AllocFailed<Event>>
    ensures kept { OnOk result (kept.new.items ≡ (if is_wanted then kept.old.items ++ event ∷ [] else kept.old.items)) }
    ensures refused { OnErr result (kept.new.items ≡ kept.old.items) }
{
    if is_wanted {
        kept.push(event)?;
    }
    Ok(())
}
