//! All of a text to a link.
ghost use Rattle.std.specs.Prelude.{◌≡◌, OnOk, OnErr};
ghost use Rattle.cov_spec.specs.Causes.{HasCause};
ghost use Rattle.cov_spec.specs.Told.{Grows, GrowsByFront};

use cov_base::{Failed, Link};

/// Writes all of the bytes, or a part of them from the front where the link fails.
pub(crate) fn write_all<L: Link>(link: &mut L, bytes: &[u8]) -> Result<(), Failed>
    ensures ok { OnOk result (Grows (L.written link.old) (L.written link.new) bytes.now) }
    ensures err { OnErr result (GrowsByFront (L.written link.old) (L.written link.new) bytes.now) }
    ensures left { L.left link.new ≡ L.left link.old }
    ensures cause { HasCause (L.write_faults link.old) (L.write_faults link.new) result }
    ensures read_faults { L.read_faults link.new ≡ L.read_faults link.old }
{
    let mut at = 0;
    while at < bytes.len() {
        at += link.write(&bytes[at..])?;
    }
    Ok(())
}
