//! The item behind a gate.
ghost use Rattle.std.specs.Prelude.{◌≡◌, ◌<◌, ◌^◌, ◌+◌, true, drop, length, IfOk, IfErr, MatchOption};
ghost use Rattle.journal_file.specs.Looking.{Looks};
ghost use Rattle.journal_file.specs.Stands.{StartsWith, StartsWithNone};
ghost use Rattle.journal_file.specs.Ending.{item_of};
ghost use Rattle.journal_file.specs.Outcomes.{IsOfMachine, CountsFaults};

use crate::looking::{content_at, head_at};
use crate::{Entry, OpenFault};
use cov_disk::Disk;
use journal_bytes::Head;
use std::alloc::Global;

/// The item from this place on, where a gate stands behind it; none where it isn't whole.
pub(crate) fn item_at<D: Disk>(
    alloc: Global,
    disk: &mut D,
    place: u64,
) -> Result<Option<Entry>, OpenFault>
    requires sound { D.faults disk.old ≡ 0 }
    requires room { place < 2 ^ 62 + 2 }
    ensures item { D.told disk.old ≡ true → IfOk result (λ o. MatchOption o (StartsWithNone (drop place (D.seen disk.old)))
        (λ entry. StartsWith (item_of entry) (drop place (D.seen disk.old)))) }
    ensures short { IfOk result (λ o. MatchOption o (Unit {0}) (λ entry. length entry.content.items < 2 ^ 32)) }
    ensures machine { IfErr result IsOfMachine }
    ensures looks { Looks D.told D.seen D.may_leave D.moment D.left_since disk.old disk.new }
    ensures faults { CountsFaults result (D.faults disk.new) }
{
    let Some(bytes) = head_at(disk, place)? else {
        return Ok(None);
    };
    let head = Head::from_bytes(bytes);
    let Some(content) = content_at(alloc, disk, place + 9, head.length)? else {
        return Ok(None);
    };
    Ok(Some(Entry {
        caller: head.caller,
        kind: head.kind,
        content,
    }))
}
