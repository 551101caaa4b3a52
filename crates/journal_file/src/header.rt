//! The header of a journal in its file.
ghost use Rattle.std.specs.Prelude.{◌≡◌, true};
ghost use Rattle.journal_file.specs.Looking.{Looks};
ghost use Rattle.journal_file.specs.Outcomes.{CountsFaults, HasHeader};

use crate::OpenFault;
use crate::looking::look;
use cov_disk::Disk;
use journal_bytes::kept_digest;

/// Whether the file begins a journal for the design text of this SHA-256.
pub(crate) fn check_header<D: Disk>(disk: &mut D, digest: &[u8; 32]) -> Result<(), OpenFault>
    requires { D.faults disk.old ≡ 0 }
    ensures header { D.told disk.old ≡ true → HasHeader digest.now (D.seen disk.old) result }
    ensures looks { Looks D.told D.seen D.may_leave D.moment D.left_since disk.old disk.new }
    ensures faults { CountsFaults result (D.faults disk.new) }
{
    let mut bytes = [0; 41];
    let full = look(disk, 0, &mut bytes)?;
    if !full {
        return Err(OpenFault::BadJournal { at: 0 });
    }
    let Some(kept) = kept_digest(&bytes) else {
        return Err(OpenFault::BadJournal { at: 0 });
    };
    if kept != *digest {
        return Err(OpenFault::OtherDesign { digest: kept });
    }
    Ok(())
}
