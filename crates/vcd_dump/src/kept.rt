//! A word that is kept until a later one is read.
ghost use Rattle.std.specs.Prelude.{◌≡◌, [], OnOk};

use std::alloc::{AllocError, Global};
use std::marker::Model;

/// The bytes of a word. Its room is used again by the next one.
#[derive(Drop)]
pub(crate) struct Kept {
    bytes: Vec<u8>,
}

impl Model for Kept {
    ghost use Rattle.std.specs.Prelude.{List, ℕ};

    ghost Value = { List ℕ };

    ghost view = { λ kept. kept.bytes.items };
}

impl Kept {
    /// No bytes. It takes no memory.
    pub(crate) fn new(alloc: Global) -> Kept
        ensures { result ≡ [] }
    {
        Kept {
            bytes: Vec::new(alloc),
        }
    }

    /// These bytes in place of those that were kept.
    pub(crate) fn keep(&mut self, bytes: &[u8]) -> Result<(), AllocError>
        ensures { OnOk result (self.new ≡ bytes.now) }
    {
        self.bytes.clear();
        self.bytes.extend_from_slice(bytes)?;
        Ok(())
    }

    /// The bytes.
    pub(crate) fn as_slice(&self) -> &[u8]
        ensures { result.now ≡ self.now }
    {
        self.bytes.as_slice()
    }
}
