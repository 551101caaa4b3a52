//! Files, and designs from their files.
ghost use Rattle.std.specs.Prelude.{◌≡◌, ◌≤◌, IfOk};
ghost use Rattle.covd_commands.specs.Lines.{IsDesignFaultText};
ghost use Rattle.covd_commands.specs.declared.status.Status.TheVariants.{DesignRefused};
ghost use Rattle.covd_commands.specs.Steps.{IsLoaded, IsHad};

use crate::Status;
use crate::answer::Answer;
use crate::texts::{cannot_read, design_refused, too_long};
use cov_base::{Memory, Shelf, ShelfRefusal};
use cov_compile::{CompileFault, compile, refusal_of};
use cov_ground::limits::LONGEST_DESIGN;
use design_data::Design;
use std::alloc::Global;

/// The bytes of a file, or the answer that it can't be had.
pub enum Loaded {
    Bytes(Vec<u8>),
    Refused(Answer),
}

/// A file of at most so many bytes.
pub fn load<F: Shelf>(alloc: Global, name: &str, most: u64, shelf: &mut F) -> Result<Loaded, Memory>
    ensures same { F.files shelf.new ≡ F.files shelf.old }
    ensures later { F.faults shelf.old ≤ F.faults shelf.new }
    ensures loaded { IfOk result (IsLoaded (F.files shelf.old) (F.faults shelf.old) (F.faults shelf.new) name.now most) }
{
    match shelf.load(alloc, name, most) {
        Ok(bytes) => Ok(Loaded::Bytes(bytes)),
        Err(ShelfRefusal::Failed) | Err(ShelfRefusal::Missing) => {
            let text = cannot_read(alloc, name)?;
            Ok(Loaded::Refused(Answer {
                status: Status::ShelfFault,
                text,
            }))
        }
        Err(ShelfRefusal::TooLong { size }) => {
            let text = too_long(alloc, name, size)?;
            Ok(Loaded::Refused(Answer {
                status: Status::FileTooLong,
                text,
            }))
        }
        Err(ShelfRefusal::Memory) => Err(Memory),
    }
}

/// The answer to a text that is not compiled.
pub fn uncompiled(alloc: Global, fault: CompileFault) -> Result<Answer, Memory>
    ensures { IfOk result (λ a. (a.status ≡ DesignRefused) × IsDesignFaultText fault a.text.items) }
{
    match refusal_of(fault) {
        None => Err(Memory),
        Some(refusal) => {
            let text = design_refused(alloc, refusal.kind, refusal.at)?;
            Ok(Answer {
                status: Status::DesignRefused,
                text,
            })
        }
    }
}

/// A design, or the answer that it can't be had.
pub enum HadDesign {
    Compiled(Design),
    Refused(Answer),
}

/// Loads and compiles.
pub fn had_design<F: Shelf>(alloc: Global, name: &str, shelf: &mut F) -> Result<HadDesign, Memory>
    ensures same { F.files shelf.new ≡ F.files shelf.old }
    ensures later { F.faults shelf.old ≤ F.faults shelf.new }
    ensures had { IfOk result (IsHad (F.files shelf.old) (F.faults shelf.old) (F.faults shelf.new) name.now) }
{
    let text = match load(alloc, name, LONGEST_DESIGN, shelf)? {
        Loaded::Bytes(text) => text,
        Loaded::Refused(answer) => return Ok(HadDesign::Refused(answer)),
    };
    match compile(alloc, &text) {
        Ok(design) => Ok(HadDesign::Compiled(design)),
        Err(fault) => Ok(HadDesign::Refused(uncompiled(alloc, fault)?)),
    }
}
