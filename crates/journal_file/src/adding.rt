//! Items that are put into a journal.
ghost use Rattle.std.specs.Prelude.{◌≡◌, ◌+◌, ◌<◌, ◌≤◌, ◌^◌, ◌++◌, ◌∷◌, ◌↔◌, ℕ, List, [], true, length, IsTrue, IfOk, IfErr, OnOk, OnErr};
ghost use Rattle.cov_disk.specs.Files.{Only, LeavesOnly, Counts};
ghost use Rattle.journal_bytes.specs.Items.{Item};
ghost use Rattle.journal_file.specs.Looking.{Looks};
ghost use Rattle.journal_file.specs.Stands.{StandsFor, StandsEither};
ghost use Rattle.journal_file.specs.Ending.{IsRoomy, EndsAt, item_with};
ghost use Rattle.journal_file.specs.Outcomes.{CountsFaults, IsOfMachine};

use crate::looking::byte_at;
use crate::{End, OpenFault};
use cov_base::Failed;
use cov_disk::{Disk, append};
use journal_bytes::{Head, empty_journal};

/// Whether the file has no byte.
pub fn is_empty<D: Disk>(disk: &mut D) -> Result<bool, OpenFault>
    requires { D.faults disk.old ≡ 0 }
    ensures empty { D.told disk.old ≡ true → IfOk result (λ empty. IsTrue empty ↔ length (D.seen disk.old) ≡ 0) }
    ensures machine { IfErr result IsOfMachine }
    ensures looks { Looks D.told D.seen D.may_leave D.moment D.left_since disk.old disk.new }
    ensures faults { CountsFaults result (D.faults disk.new) }
{
    Ok(byte_at(disk, 0)?.is_none())
}

/// Makes an empty file a journal without items, for the design text of this SHA-256. A crash meanwhile may leave any 41
/// bytes or fewer.
pub fn begin<D: Disk>(disk: &mut D, digest: &[u8; 32]) -> Result<End, Failed>
    requires sound { D.faults disk.old ≡ 0 }
    requires empty { D.told disk.old ≡ true → D.seen disk.old ≡ [] }
    ensures begun { D.told disk.old ≡ true → OnOk result (StandsFor digest.now [] (D.seen disk.new)) }
    ensures end { IfOk result (EndsAt digest.now []) }
    ensures room { IfOk result IsRoomy }
    ensures any_moment { D.told disk.old ≡ true → Only (D.seen disk.old) (D.may_leave disk.old)
        → LeavesOnly D.moment D.left_since disk.old disk.new (λ image. length image ≤ 41) }
    ensures durable { OnOk result (Only (D.seen disk.new) (D.may_leave disk.new)) }
    ensures there { D.may_leave disk.old (D.seen disk.old) → OnOk result (D.may_leave disk.new (D.seen disk.new)) }
    ensures told { D.told disk.new ≡ D.told disk.old }
    ensures faults { Counts result (D.faults disk.new) }
{
    disk.write_at(0, &empty_journal(digest))?;
    disk.sync()?;
    Ok(End::first(digest))
}

/// Puts an item behind those that end at `end`, and moves `end` behind it. At `Ok` it is there at each crash from then on; a
/// crash meanwhile leaves the items before it, with it or without it. Its sum is the one of `end` then.
pub fn add<D: Disk>(
    disk: &mut D,
    end: &mut End,
    caller: u32,
    kind: u8,
    content: &[u8],
) -> Result<(), Failed>
    requires sound { D.faults disk.old ≡ 0 }
    requires place { D.told disk.old ≡ true → end.old.place < length (D.seen disk.old) }
    requires durable { Only (D.seen disk.old) (D.may_leave disk.old) }
    requires room { IsRoomy end.old }
    requires short { length content.now < 2 ^ 32 }
    ensures added { (digest : List ℕ) (items : List Item) → D.told disk.old ≡ true → EndsAt digest items end.old
        → StandsFor digest items (D.seen disk.old)
        → OnOk result (StandsFor digest (items ++ item_with caller kind content.now ∷ []) (D.seen disk.new)) }
    ensures end { (digest : List ℕ) (items : List Item) → EndsAt digest items end.old
        → OnOk result (EndsAt digest (items ++ item_with caller kind content.now ∷ []) end.new) }
    ensures any_moment { (digest : List ℕ) (items : List Item) → D.told disk.old ≡ true → EndsAt digest items end.old
        → StandsFor digest items (D.seen disk.old) → LeavesOnly D.moment D.left_since disk.old disk.new
        (StandsEither digest items (item_with caller kind content.now)) }
    ensures place { OnOk result (end.new.place ≡ end.old.place + (10 + length content.now)) }
    ensures count { OnOk result (end.new.count ≡ end.old.count + 1) }
    ensures same { OnErr result (end.new ≡ end.old) }
    ensures durable { OnOk result (Only (D.seen disk.new) (D.may_leave disk.new)) }
    ensures there { D.may_leave disk.old (D.seen disk.old) → OnOk result (D.may_leave disk.new (D.seen disk.new)) }
    ensures told { D.told disk.new ≡ D.told disk.old }
    ensures faults { Counts result (D.faults disk.new) }
{
    let head = Head {
        caller,
        kind,
        length: content.len() as u32,
    };
    let bytes = head.to_bytes();
    append(disk, end.place, &bytes, content)?;
    *end = end.behind(&bytes, content);
    Ok(())
}
