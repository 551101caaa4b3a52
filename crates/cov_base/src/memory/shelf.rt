//! Shelves in memory.
ghost use Rattle.std.specs.Prelude.{◌≡◌, ◌≤◌, ℕ, Some, option_map, List, Err, true};
ghost use Rattle.cov_spec.specs.Files.{file_of};
ghost use Rattle.cov_base.specs.Amounts.{LoadsAtMost};
ghost use Rattle.cov_base.specs.Loads.{Loads};
ghost use Rattle.cov_base.specs.Memory.{told};
ghost use Rattle.cov_base.specs.Plan.{planned, called, is_due};

use crate::memory::plan::Failing;
use crate::{Shelf, ShelfRefusal};
use std::alloc::Global;
use std::marker::Model;

// The first file of that name.
fn find<'a>(files: &'a [(String, Vec<u8>)], name: &str) -> Option<&'a [u8]>
    ensures { option_map (λ bytes. bytes.now) result ≡ file_of (told files.now) name.now }
{
    for file in files {
        if file.0.as_str() == name {
            return Some(file.1.as_slice());
        }
    }
    None
}

/// Whole files at hand.
#[derive(Drop)]
pub struct SureShelf {
    files: Vec<(String, Vec<u8>)>,
}

impl Model for SureShelf {
    ghost Value = { List (List ℕ × List ℕ) };

    ghost view = { λ s. told s.files.items };
}

impl SureShelf {
    /// A shelf of these files, each with its name.
    pub fn new(files: Vec<(String, Vec<u8>)>) -> Self
        ensures { result ≡ told files.items }
    {
        SureShelf { files }
    }
}

impl Shelf for SureShelf {
    ghost files = { λ s. Some s };

    ghost faults = { λ s. 0 };

    fn load(&mut self, alloc: Global, name: &str, most: u64) -> Result<Vec<u8>, ShelfRefusal>
        ensures same { Some self.new ≡ Some self.old }
        ensures later { 0 ≤ 0 }
        ensures bound { LoadsAtMost result most }
        ensures loads { Loads (Some self.old) 0 0 name.now most result }
        ensures files { self.new ≡ self.old }
    {
        let Some(bytes) = find(self.files.as_slice(), name) else {
            return Err(ShelfRefusal::Missing);
        };
        let size = bytes.len() as u64;
        if size > most {
            return Err(ShelfRefusal::TooLong { size });
        }
        Vec::from_slice(alloc, bytes).map_err(|_| ShelfRefusal::Memory)
    }
}

/// Whole files at hand, where some calls fail.
#[derive(Drop)]
pub struct MemShelf {
    inner: SureShelf,
    plan: Failing,
}

impl Model for MemShelf {
    ghost use Rattle.cov_base.specs.Memory.{PlannedFiles};

    ghost Value = { PlannedFiles };

    ghost view = { λ s. record { files = s.inner; plan = s.plan } };
}

impl MemShelf {
    /// A shelf of these files, each with its name, that fails at the calls of these numbers, the first call being 0.
    pub fn new(files: Vec<(String, Vec<u8>)>, failing: Vec<u64>) -> Self
        ensures { result ≡ record { files = told files.items; plan = planned failing.items } }
    {
        MemShelf {
            inner: SureShelf::new(files),
            plan: Failing::new(failing),
        }
    }
}

impl Shelf for MemShelf {
    ghost files = { λ s. Some s.files };

    ghost faults = { λ s. s.plan.faults };

    fn load(&mut self, alloc: Global, name: &str, most: u64) -> Result<Vec<u8>, ShelfRefusal>
        ensures same { Some self.new.files ≡ Some self.old.files }
        ensures later { self.old.plan.faults ≤ self.new.plan.faults }
        ensures bound { LoadsAtMost result most }
        ensures loads { Loads (Some self.old.files) self.old.plan.faults self.new.plan.faults
            name.now most result }
        ensures plan { self.new.plan ≡ called self.old.plan }
        ensures due { is_due self.old.plan ≡ true → result ≡ Err ShelfRefusal.Failed }
        ensures failed { result ≡ Err ShelfRefusal.Failed → is_due self.old.plan ≡ true }
    {
        match self.plan.call() {
            Err(_) => Err(ShelfRefusal::Failed),
            Ok(()) => self.inner.load(alloc, name, most),
        }
    }
}
