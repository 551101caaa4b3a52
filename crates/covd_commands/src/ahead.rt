//! Records that are read ahead of their turn.
ghost use Rattle.std.specs.Prelude.{◌≡◌, List, ◌<◌, ◌≤◌, ◌∷◌, ◌++◌, [], length, IfOk, IfErr, OnOk};
ghost use Rattle.covd_commands.specs.Ahead.{AreRead};
ghost use Rattle.covd_commands.specs.Finding.{Origin as AnyOrigin, NoneComes};
ghost use Rattle.covd_commands.specs.Origins.{origin_of, origins_of};

use crate::finding::{Source, read};
use crate::origins::{Origin, Origins};
use crate::stop::Stop;
use cov_base::{Memory, Shelf};
use design_data::Design;
use std::alloc::Global;

/// The most records of a batch.
pub const MOST_RECORDS: usize = 16;

/// Once the records have so many bytes, no further one is read ahead.
const ENOUGH_BYTES: usize = 33_554_432;

/// About how many bytes an event of the generator has.
const EVENT_BYTES: usize = 8;

/// About how many bytes the record of what was read has.
fn size_of(design: &Design, source: &Source) -> usize {
    match source {
        Source::Bytes(bytes) => bytes.len(),
        Source::Numbers(numbers) => {
            let events = design
                .signals()
                .len()
                .saturating_add(design.instances().len());
            events
                .saturating_mul(EVENT_BYTES)
                .saturating_mul(numbers.rounds as usize)
        }
    }
}

/// Puts what was read behind a batch.
fn push_source(batch: &mut Vec<Source>, source: Source) -> Result<(), Memory>
    ensures { OnOk result (batch.new.items ≡ batch.old.items ++ source ∷ []) }
{
    batch.push(source)?;
    Ok(())
}

/// Reads further origins behind those of a batch, whose records have so many bytes, as far as there is room in it. One
/// that can't be read ends the batch; it is read again when its turn has come, and told then.
fn read_more<F: Shelf>(
    alloc: Global,
    design: &Design,
    origins: Origins,
    shelf: &mut F,
    batch: &mut Vec<Source>,
    already: usize,
) -> Result<(), Memory>
    ensures same { F.files shelf.new ≡ F.files shelf.old }
    ensures later { F.faults shelf.old ≤ F.faults shelf.new }
    ensures grows { OnOk result (length batch.old.items ≤ length batch.new.items) }
    ensures read { (all : List AnyOrigin) → AreRead (F.files shelf.old) all batch.old.items (origins_of origins.entry)
        → OnOk result ((left : List AnyOrigin) × AreRead (F.files shelf.old) all batch.new.items left) }
{
    let mut loaded = already;
    let mut rest = origins;
    while let Some((origin, later)) = rest.split_first() {
        if batch.len() >= MOST_RECORDS {
            return Ok(());
        }
        if loaded >= ENOUGH_BYTES {
            return Ok(());
        }
        let Ok(source) = read(alloc, origin, shelf) else {
            return Ok(());
        };
        loaded = loaded.saturating_add(size_of(design, &source));
        push_source(batch, source)?;
        rest = later;
    }
    Ok(())
}

/// Reads the origin of a record, and further ones ahead.
pub fn read_batch<F: Shelf>(
    alloc: Global,
    design: &Design,
    origin: Origin,
    later: Origins,
    shelf: &mut F,
) -> Result<Vec<Source>, Stop>
    ensures same { F.files shelf.new ≡ F.files shelf.old }
    ensures later { F.faults shelf.old ≤ F.faults shelf.new }
    ensures read { IfOk result (λ batch. (left : List AnyOrigin)
        × AreRead (F.files shelf.old) (origin_of origin.entry ∷ origins_of later.entry) batch.items left) }
    ensures some { IfOk result (λ batch. 0 < length batch.items) }
    ensures unread { IfErr result
        (NoneComes (F.files shelf.old) (F.faults shelf.old) (F.faults shelf.new) (origin_of origin.entry)) }
{
    let first = read(alloc, origin, shelf)?;
    let already = size_of(design, &first);
    let mut batch = Vec::new(alloc);
    push_source(&mut batch, first)?;
    read_more(alloc, design, later, shelf, &mut batch, already)?;
    Ok(batch)
}
