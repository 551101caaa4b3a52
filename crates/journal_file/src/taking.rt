//! The next item of a journal.
ghost use Rattle.std.specs.Prelude.{◌≡◌, ◌<◌, ◌≤◌, ◌+◌, true, ℕ, List, IfOk, MatchOption};
ghost use Rattle.journal_bytes.specs.Items.{Item};
ghost use Rattle.journal_file.specs.Looking.{Looks};
ghost use Rattle.journal_file.specs.Ending.{IsRoomy};
ghost use Rattle.journal_file.specs.Outcomes.{CountsFaults, ReadTo, IsOpen, Takes, TakesOpen, MovesOn};

use crate::item::item_at;
use crate::looking::byte_at;
use crate::sums::agrees_at;
use crate::{End, Entry, OpenFault};
use cov_disk::Disk;
use std::alloc::Global;

/// A gate that is open.
const OPEN: u8 = 1;

/// No journal is read up to this place.
const TOO_LONG: u64 = 0x4000_0000_0000_0000;

/// The item behind this open gate, and where the items end with it.
fn take_open<D: Disk>(
    alloc: Global,
    disk: &mut D,
    sums: &[u8],
    end: &End,
) -> Result<(Entry, End), OpenFault>
    requires sound { D.faults disk.old ≡ 0 }
    requires room { IsRoomy end.now }
    ensures taken { (digest : List ℕ) (items : List Item) → D.told disk.old ≡ true
        → ReadTo digest sums.now items end.now (D.seen disk.old) → IsOpen digest items (D.seen disk.old)
        → TakesOpen digest sums.now (D.seen disk.old) items result }
    ensures room { IfOk result (λ taken. IsRoomy taken.1 × (end.now.place < taken.1.place)) }
    ensures count { IfOk result (λ taken. taken.1.count ≡ end.now.count + 1) }
    ensures looks { Looks D.told D.seen D.may_leave D.moment D.left_since disk.old disk.new }
    ensures faults { CountsFaults result (D.faults disk.new) }
{
    let at = end.place;
    let Some(entry) = item_at(alloc, disk, at + 1)? else {
        return Err(OpenFault::BadJournal { at });
    };
    let next = end.behind(&entry.head(), entry.content.as_slice());
    if !agrees_at(sums, end.count, &next.sum) {
        return Err(OpenFault::Damaged { at });
    }
    if next.place >= TOO_LONG {
        return Err(OpenFault::TooLong);
    }
    Ok((entry, next))
}

/// Reads the item behind those that end at `end`, and moves `end` behind it; none where the gate there isn't open. A whole
/// sum beside it is compared; one more than there are items isn't looked at.
pub fn take_next<D: Disk>(
    alloc: Global,
    disk: &mut D,
    sums: &[u8],
    end: &mut End,
) -> Result<Option<Entry>, OpenFault>
    requires sound { D.faults disk.old ≡ 0 }
    requires room { IsRoomy end.old }
    ensures takes { (digest : List ℕ) (items : List Item) → D.told disk.old ≡ true
        → ReadTo digest sums.now items end.old (D.seen disk.old)
        → Takes digest sums.now (D.seen disk.old) items end.new result }
    ensures room { IsRoomy end.new }
    ensures moves { MovesOn end.old end.new result }
    ensures looks { Looks D.told D.seen D.may_leave D.moment D.left_since disk.old disk.new }
    ensures faults { CountsFaults result (D.faults disk.new) }
{
    let at = end.place;
    let Some(gate) = byte_at(disk, at)? else {
        return Err(OpenFault::BadJournal { at });
    };
    if gate != OPEN {
        return Ok(None);
    }
    let (entry, next) = take_open(alloc, disk, sums, end)?;
    *end = next;
    Ok(Some(entry))
}
