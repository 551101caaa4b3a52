//! An upload, from its begin to its end.
ghost use Rattle.std.specs.Prelude.{◌≡◌, ◌≤◌, None, length, IfOk};
ghost use Rattle.cov_ground.specs.Limits.{longest_record};
ghost use Rattle.upload_stage.specs.Uploads.{Begins, Pieces, Finishes};

use crate::StageFault;
use crate::held::Held;
use cov_ground::limits::LONGEST_RECORD;
use sha2::{Digest, Sha256};
use std::alloc::Global;
use std::marker::Model;

/// Where at most one upload is gathered. Contracts see none, or for each place the byte received there, if any was.
pub struct Stage {
    open: Option<Held>,
}

impl Drop for Stage {
    fn drop(self) {
        let Stage { open: _ } = self;
    }
}

impl Model for Stage {
    ghost use Rattle.std.specs.Prelude.{ℕ, List, Option};

    ghost Value = { Option (List (Option ℕ)) };

    ghost view = { λ stage. stage.open };
}

impl Stage {
    /// A stage with no upload. It takes no memory.
    pub fn new() -> Stage
        ensures { result ≡ None }
    {
        Stage { open: None }
    }

    /// Opens an upload of `len` bytes, at most as many as a record may have. All room that the upload needs is taken
    /// here. An upload of no bytes is complete at once.
    pub fn begin(&mut self, alloc: Global, len: u64) -> Result<(), StageFault>
        ensures { Begins self.old len result self.new }
    {
        if self.open.is_some() {
            return Err(StageFault::StageBusy);
        }
        if len > LONGEST_RECORD {
            return Err(StageFault::TooLong { n: len });
        }
        match Held::new(alloc, len as usize) {
            Ok(held) => {
                self.open = Some(held);
                Ok(())
            }
            Err(_) => Err(StageFault::Memory),
        }
    }

    /// Puts bytes at their places, from `offset` on. A byte may come twice if it is the same. A piece that is refused
    /// changes nothing. It takes no memory, and time in the piece's own length.
    pub fn piece(&mut self, offset: u64, bytes: &[u8]) -> Result<(), StageFault>
        ensures { Pieces self.old offset bytes.now result self.new }
    {
        let Some(held) = &mut self.open else {
            return Err(StageFault::NoUpload);
        };
        let len = held.len();
        if offset > len as u64 || bytes.len() > len - offset as usize {
            return Err(StageFault::Outside {
                offset,
                len: len as u64,
            });
        }
        match held.first_differing(offset as usize, bytes) {
            Some(at) => Err(StageFault::Differs { at: at as u64 }),
            None => {
                held.add(offset as usize, bytes);
                Ok(())
            }
        }
    }

    /// Hands over the bytes of a complete upload, whose SHA-256 is to be `digest`. A complete upload leaves the stage,
    /// also where its digest differs; one that lacks a byte stays. It takes no memory, and in all calls for one
    /// upload together goes once over its places.
    pub fn finish(&mut self, digest: &[u8; 32]) -> Result<Vec<u8>, StageFault>
        ensures finishes { Finishes self.old digest.now result self.new }
        ensures short { IfOk result (λ bytes. length bytes.items ≤ longest_record) }
    {
        let Some(held) = &mut self.open else {
            return Err(StageFault::NoUpload);
        };
        if let Some(at) = held.first_missing() {
            return Err(StageFault::Missing { at: at as u64 });
        }
        let Some(held) = self.open.take() else {
            return Err(StageFault::NoUpload);
        };
        let bytes = held.into_bytes();
        let got = Sha256::digest(bytes.as_slice());
        if got == *digest {
            Ok(bytes)
        } else {
            Err(StageFault::DigestDiffers { got })
        }
    }
}
