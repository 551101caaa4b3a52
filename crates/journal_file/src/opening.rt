//! A journal that is opened.
ghost use Rattle.std.specs.Prelude.{◌≡◌, ◌+◌, ◌*◌, ◌<◌, ◌≤◌, ◌++◌, ◌∷◌, ℕ, List, [], true, map, length, drop, IfOk, OnOk, IfErr, MatchOption};
ghost use Rattle.cov_disk.specs.Files.{Only};
ghost use Rattle.journal_bytes.specs.Items.{Item};
ghost use Rattle.journal_bytes.specs.Sums.{sums_of};
ghost use Rattle.journal_file.specs.Looking.{Looks, Keeps};
ghost use Rattle.journal_file.specs.Stands.{Begins};
ghost use Rattle.journal_file.specs.Damage.{whole};
ghost use Rattle.journal_file.specs.Ending.{IsRoomy, EndsAt, item_of};
ghost use Rattle.journal_file.specs.Outcomes.{CountsFaults, IsOfMachine, Reads, Opens};

use crate::header::check_header;
use crate::sums::whole_sums;
use crate::{End, Entry, OpenFault, take_next};
use cov_base::Failed;
use cov_disk::Disk;
use std::alloc::{AllocError, Global};

/// What was read of a journal.
#[derive(Drop)]
pub struct Opened {
    /// All items, in order.
    pub entries: Vec<Entry>,
    /// Where they end.
    pub end: End,
    /// The sums that are missing beside it, behind the whole ones that are there.
    pub missing: Vec<u8>,
}

/// Puts the sum of the last item behind the missing ones, if there is no whole one for it.
fn make_up(missing: &mut Vec<u8>, sums: &[u8], end: &End) -> Result<(), AllocError>
    ensures { (digest : List ℕ) (items : List Item) (item : Item) → EndsAt digest (items ++ item ∷ []) end.now
        → missing.old.items ≡ drop (32 * whole sums.now) (sums_of digest items)
        → OnOk result (missing.new.items ≡ drop (32 * whole sums.now) (sums_of digest (items ++ item ∷ []))) }
{
    if end.count <= whole_sums(sums) {
        return Ok(());
    }
    missing.extend_from_slice(&end.sum)?;
    Ok(())
}

/// Reads all items of a journal whose header was looked at.
fn read_all<D: Disk>(
    alloc: Global,
    disk: &mut D,
    digest: &[u8; 32],
    sums: &[u8],
) -> Result<Opened, OpenFault>
    requires { D.faults disk.old ≡ 0 }
    ensures reads { D.told disk.old ≡ true → Begins digest.now [] (D.seen disk.old)
        → Reads digest.now sums.now (D.seen disk.old) result }
    ensures room { IfOk result (λ opened. IsRoomy opened.end) }
    ensures looks { Looks D.told D.seen D.may_leave D.moment D.left_since disk.old disk.new }
    ensures faults { CountsFaults result (D.faults disk.new) }
{
    let mut end = End::first(digest);
    let mut entries = Vec::new(alloc);
    let mut missing = Vec::new(alloc);
    'items: loop {
        let found = take_next(alloc, disk, sums, &mut end)?;
        let Some(entry) = found else {
            return Ok(Opened {
                entries,
                end,
                missing,
            });
        };
        let Ok(()) = make_up(&mut missing, sums, &end) else {
            return Err(OpenFault::Memory);
        };
        let Ok(()) = entries.push(entry) else {
            return Err(OpenFault::Memory);
        };
    }
}

/// Has the file's bytes on the disk, those too that an earlier process left to the system.
fn settle<D: Disk>(disk: &mut D) -> Result<(), OpenFault>
    requires { D.faults disk.old ≡ 0 }
    ensures durable { D.faults disk.new ≡ 0 → Only (D.seen disk.new) (D.may_leave disk.new) }
    ensures seen { D.faults disk.new ≡ 0 → D.seen disk.new ≡ D.seen disk.old }
    ensures there { D.faults disk.new ≡ 0 → D.may_leave disk.old (D.seen disk.old) → D.may_leave disk.new (D.seen disk.new) }
    ensures keeps { Keeps D.told D.may_leave D.moment D.left_since disk.old disk.new }
    ensures machine { IfErr result IsOfMachine }
    ensures faults { CountsFaults result (D.faults disk.new) }
{
    match disk.sync() {
        Ok(()) => Ok(()),
        Err(Failed) => Err(OpenFault::DiskFault),
    }
}

/// Opens the journal for the design text of this SHA-256, and reads all its items. The whole sums beside it are compared, as
/// many as there are items: sums that were cut or lost are told as missing, one more than items isn't looked at (the gate of
/// the last item may have shut by itself then, and nothing tells), and two more are damage. Nothing is written.
pub fn open<D: Disk>(
    alloc: Global,
    disk: &mut D,
    digest: &[u8; 32],
    sums: &[u8],
) -> Result<Opened, OpenFault>
    requires { D.faults disk.old ≡ 0 }
    ensures opens { D.told disk.old ≡ true → Opens digest.now sums.now (D.seen disk.old) result }
    ensures room { IfOk result (λ opened. IsRoomy opened.end) }
    ensures durable { D.faults disk.new ≡ 0 → Only (D.seen disk.new) (D.may_leave disk.new) }
    ensures seen { D.faults disk.new ≡ 0 → D.seen disk.new ≡ D.seen disk.old }
    ensures there { D.faults disk.new ≡ 0 → D.may_leave disk.old (D.seen disk.old) → D.may_leave disk.new (D.seen disk.new) }
    ensures keeps { Keeps D.told D.may_leave D.moment D.left_since disk.old disk.new }
    ensures faults { CountsFaults result (D.faults disk.new) }
{
    settle(disk)?;
    check_header(disk, digest)?;
    let opened = read_all(alloc, disk, digest, sums)?;
    if whole_sums(sums) > opened.end.count + 1 {
        return Err(OpenFault::Damaged {
            at: opened.end.place,
        });
    }
    Ok(opened)
}
