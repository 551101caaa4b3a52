//! Bytes of a file, as an item of a journal is read from it.
ghost use Rattle.std.specs.Prelude.{◌≡◌, ◌+◌, ◌<◌, ◌≤◌, ◌^◌, true, length, take, drop, slice_index, IfOk, IfErr, MatchOption};
ghost use Rattle.cov_disk.specs.Files.{Fills};
ghost use Rattle.journal_file.specs.Looking.{Looks};
ghost use Rattle.journal_file.specs.Outcomes.{IsOfMachine, CountsFaults};

use crate::OpenFault;
use cov_base::Failed;
use cov_disk::{Disk, fill_from};
use std::alloc::Global;

/// Fills the room with the file's bytes from a place on; false where the file ends before the room does.
pub(crate) fn look<D: Disk>(disk: &mut D, place: u64, into: &mut [u8]) -> Result<bool, OpenFault>
    requires sound { D.faults disk.old ≡ 0 }
    requires room { place + length into.old < 2 ^ 63 }
    ensures long { length into.new ≡ length into.old }
    ensures fills { D.told disk.old ≡ true → IfOk result (λ full. Fills (D.seen disk.old) place full into.new) }
    ensures machine { IfErr result IsOfMachine }
    ensures looks { Looks D.told D.seen D.may_leave D.moment D.left_since disk.old disk.new }
    ensures faults { CountsFaults result (D.faults disk.new) }
{
    match fill_from(disk, place, into) {
        Ok(full) => Ok(full),
        Err(Failed) => Err(OpenFault::DiskFault),
    }
}

/// The byte at a place; none where the file ends before it.
pub(crate) fn byte_at<D: Disk>(disk: &mut D, place: u64) -> Result<Option<u8>, OpenFault>
    requires sound { D.faults disk.old ≡ 0 }
    requires room { place + 1 < 2 ^ 63 }
    ensures byte { D.told disk.old ≡ true → IfOk result (λ o. MatchOption o (length (D.seen disk.old) ≤ place)
        (λ byte. (byte ≡ slice_index (D.seen disk.old) place) × (place < length (D.seen disk.old)))) }
    ensures machine { IfErr result IsOfMachine }
    ensures looks { Looks D.told D.seen D.may_leave D.moment D.left_since disk.old disk.new }
    ensures faults { CountsFaults result (D.faults disk.new) }
{
    let mut byte = [0];
    if look(disk, place, &mut byte)? {
        return Ok(Some(byte[0]));
    }
    Ok(None)
}

/// The nine bytes from a place on; none where the file ends before the last.
pub(crate) fn head_at<D: Disk>(disk: &mut D, place: u64) -> Result<Option<[u8; 9]>, OpenFault>
    requires sound { D.faults disk.old ≡ 0 }
    requires room { place + 9 < 2 ^ 63 }
    ensures head { D.told disk.old ≡ true → IfOk result (λ o. MatchOption o (length (D.seen disk.old) < place + 9)
        (λ head. (head ≡ take 9 (drop place (D.seen disk.old))) × (place + 9 ≤ length (D.seen disk.old)))) }
    ensures machine { IfErr result IsOfMachine }
    ensures looks { Looks D.told D.seen D.may_leave D.moment D.left_since disk.old disk.new }
    ensures faults { CountsFaults result (D.faults disk.new) }
{
    let mut head = [0; 9];
    if look(disk, place, &mut head)? {
        return Ok(Some(head));
    }
    Ok(None)
}

/// As many bytes from a place on; none where the file ends with them or before. Memory is taken only where they are there.
pub(crate) fn content_at<D: Disk>(
    alloc: Global,
    disk: &mut D,
    place: u64,
    count: u32,
) -> Result<Option<Vec<u8>>, OpenFault>
    requires sound { D.faults disk.old ≡ 0 }
    requires room { place + count + 1 < 2 ^ 63 }
    ensures content { D.told disk.old ≡ true → IfOk result (λ o. MatchOption o (length (D.seen disk.old) ≤ place + count)
        (λ v. (v.items ≡ take count (drop place (D.seen disk.old))) × (place + count < length (D.seen disk.old)))) }
    ensures long { IfOk result (λ o. MatchOption o (Unit {0}) (λ v. length v.items ≡ count)) }
    ensures machine { IfErr result IsOfMachine }
    ensures looks { Looks D.told D.seen D.may_leave D.moment D.left_since disk.old disk.new }
    ensures faults { CountsFaults result (D.faults disk.new) }
{
    if byte_at(disk, place + u64::from(count))?.is_none() {
        return Ok(None);
    }
    let Ok(mut content) = Vec::from_elem(alloc, 0, count as usize) else {
        return Err(OpenFault::Memory);
    };
    if look(disk, place, content.as_mut_slice())? {
        return Ok(Some(content));
    }
    Ok(None)
}
