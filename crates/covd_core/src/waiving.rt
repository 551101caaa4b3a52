//! The waivers of a command that fills a store.
ghost use Rattle.std.specs.Prelude.{◌≡◌, ◌≤◌, option_map, IfOk};
ghost use Rattle.waivers.specs.Texts.{refused_line};
ghost use Rattle.covd_core.specs.Waiving.{IsHadWaivers};

use cov_base::{Memory, Shelf};
use covd_commands::Status;
use covd_commands::answer::Answer;
use covd_commands::loading::{Loaded, load};
use std::alloc::Global;
use waivers::{FaultKind, LONGEST_TEXT, Waiver, WaiverFault, append_refusal, read_waivers};

/// The most bytes of a file of waivers.
pub const LONGEST_WAIVERS: u64 = LONGEST_TEXT as u64;

/// The waivers of a file, where one is named, or the answer that they can't be had.
pub(crate) enum HadWaivers {
    Had(Option<Vec<Waiver>>),
    Refused(Answer),
}

/// The answer to a file of waivers with this fault.
fn refused(alloc: Global, kind: FaultKind, at: u32) -> Result<Answer, Memory>
    ensures status { IfOk result (λ a. a.status ≡ Status.WaiversRefused) }
    ensures line { IfOk result (λ a. a.text.items ≡ refused_line kind at) }
{
    let mut text = Vec::new(alloc);
    append_refusal(&mut text, kind, at)?;
    Ok(Answer {
        status: Status::WaiversRefused,
        text,
    })
}

/// Loads and reads the file of waivers, where one is named.
pub(crate) fn had_waivers<F: Shelf>(
    alloc: Global,
    file: Option<&str>,
    shelf: &mut F,
) -> Result<HadWaivers, Memory>
    ensures same { F.files shelf.new ≡ F.files shelf.old }
    ensures later { F.faults shelf.old ≤ F.faults shelf.new }
    ensures had { IfOk result (IsHadWaivers (F.files shelf.old) (F.faults shelf.old) (F.faults shelf.new)
        (option_map (λ name. name.now) file.entry)) }
{
    let Some(name) = file else {
        return Ok(HadWaivers::Had(None));
    };
    let text = match load(alloc, name, LONGEST_WAIVERS, shelf)? {
        Loaded::Bytes(text) => text,
        Loaded::Refused(answer) => return Ok(HadWaivers::Refused(answer)),
    };
    match read_waivers(alloc, text.as_slice()) {
        Ok(waivers) => Ok(HadWaivers::Had(Some(waivers))),
        Err(WaiverFault::Bad { kind, at }) => Ok(HadWaivers::Refused(refused(alloc, kind, at)?)),
        Err(WaiverFault::Memory) => Err(Memory),
    }
}
