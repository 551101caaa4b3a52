//! Whole files by name.
ghost use Rattle.std.specs.Prelude.{◌≡◌, ℕ, ◌≤◌, List, Option};
ghost use Rattle.cov_base.specs.Amounts.{LoadsAtMost};
ghost use Rattle.cov_base.specs.Loads.{Loads};

use std::alloc::Global;
use thiserror::Error;

/// Why a file was not handed over, in the order in which the causes are tried.
#[derive(Clone, Copy, Debug, PartialEq, Eq, Error)]
pub enum ShelfRefusal {
    /// The file could not be read.
    #[error("the file could not be read")]
    Failed,
    /// The files are told, and none has the name.
    #[error("there is no such file")]
    Missing,
    /// The file has `size` bytes, which are more than were asked for at most.
    #[error("the file has {size} bytes")]
    TooLong { size: u64 },
    /// Memory ran out.
    #[error("out of memory")]
    Memory,
}

/// A place that keeps whole files.
pub trait Shelf {
    /// Names and their bytes, where it tells them; of two files with one name the first counts.
    ghost files: { Self → Option (List (List ℕ × List ℕ)) };

    /// How often it has failed. The count never falls, and stands still at 2^64-1.
    ghost faults: { Self → ℕ };

    /// All bytes of the file of that name, which may have `most` bytes at most.
    fn load(&mut self, alloc: Global, name: &str, most: u64) -> Result<Vec<u8>, ShelfRefusal>
        ensures same { files self.new ≡ files self.old }
        ensures later { faults self.old ≤ faults self.new }
        ensures bound { LoadsAtMost result most }
        ensures loads { Loads (files self.old) (faults self.old) (faults self.new)
            name.now most result };
}
