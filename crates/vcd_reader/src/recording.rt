//! The record of a dump.
ghost use Rattle.std.specs.Prelude.{◌≡◌, ◌≤◌, length, Ok};
ghost use Rattle.cov_ground.specs.Limits.{most_signals, most_instances};
ghost use Rattle.record_codec.specs.Spelling.{fields_of};
ghost use Rattle.cov_design.specs.Elaboration.{Elaborates, parts_of};
ghost use Rattle.vcd_reader.specs.Refusals.{Gives};
ghost use Rattle.vcd_reader.specs.Records.{made_of, recorded};

use crate::events::watches_of;
use crate::making::record_by;
use crate::signals::codes_of;
use crate::walking::Plan;
use crate::watching::Watches;
use cov_counting::signal_rows;
use cov_tree::{DesignText, List, Name};
use design_data::Design;
use record_codec::Record;
use std::alloc::Global;
use vcd_dump::{Dump, DumpFault};

/// The record by the codes of the signals and the events of the instances.
#[tactic(auto, unfolding(crate::specs::Records::made_of))]
fn made_of(
    alloc: Global,
    design: &Design,
    dump: &Dump,
    id: &Name,
    codes: List<u32>,
    found: Watches,
) -> Result<Record, DumpFault>
    requires events { length found.events ≤ most_instances }
    requires signals { length codes ≤ most_signals }
    ensures { Gives fields_of result (made_of design.now dump.now id.now codes found) }
{
    let plan = Plan {
        rows: signal_rows(alloc, design.signals())?,
        codes,
        events: found.events,
    };
    record_by(alloc, design, dump, id, &plan)
}

/// The record of a dump: at each moment of an instance a Sample, with the values that the variables of the scope had before
/// the moment's step. The design is that of the text. A signal's variable is the first of the scope that has its name and is
/// no bit and no word of it.
///
/// The refusals, in this order: BadEvent, with the place of the first group of an instance whose event can't be watched;
/// NoSignal and WidthDiffers, by the first signal without a variable of its width; TooManyEvents; TooLong.
#[tactic(auto, unfolding(crate::specs::Records::recorded))]
pub fn record_of(
    alloc: Global,
    text: &DesignText,
    design: &Design,
    dump: &Dump,
    scope: &[u8],
    id: &Name,
) -> Result<Record, DumpFault>
    requires { Elaborates text.now ≡ Ok (parts_of design.now) }
    ensures { Gives fields_of result (recorded text.now design.now dump.now scope.now id.now) }
{
    let found = watches_of(alloc, text, design)?;
    let codes = codes_of(alloc, scope, dump.vars.as_slice(), design.signals())?;
    made_of(alloc, design, dump, id, codes, found)
}
