//! Records from where they come from.
ghost use Rattle.std.specs.Prelude.{◌≡◌, ◌≤◌, length, IfOk, IfErr};
ghost use Rattle.cov_ground.specs.Limits.{longest_record};
ghost use Rattle.covd_commands.specs.Unadmitted.{full_line};
ghost use Rattle.covd_commands.specs.Finding.{IsLine, IsDecoded, IsMade, NoneComes};
ghost use Rattle.covd_commands.specs.Origins.{origin_of, IsRead, IsShort, IsFoundIn};

use crate::Status;
use crate::count::{refused, undecoded};
use crate::forms::Numbers;
use crate::loading::{Loaded, load};
use crate::origins::Origin;
use crate::stop::Stop;
use crate::unadmitted::full;
use cov_base::{Memory, Shelf};
use cov_ground::limits::LONGEST_RECORD;
use design_data::Design;
use record_codec::{Record, decode};
use record_maker::{MakeFault, make_record};
use sampler::shape_fits;
use std::alloc::Global;

/// What is read before a record is decoded or made.
#[derive(Drop)]
pub enum Source {
    /// The bytes of its file.
    Bytes(Vec<u8>),
    /// What the generator is given.
    Numbers(Numbers),
}

/// Reads what the record that comes from there is decoded or made of.
pub fn read<F: Shelf>(alloc: Global, origin: Origin, shelf: &mut F) -> Result<Source, Stop>
    ensures same { F.files shelf.new ≡ F.files shelf.old }
    ensures later { F.faults shelf.old ≤ F.faults shelf.new }
    ensures read { IfOk result (IsRead (F.files shelf.old) (origin_of origin.entry)) }
    ensures short { IfOk result IsShort }
    ensures unread { IfErr result
        (NoneComes (F.files shelf.old) (F.faults shelf.old) (F.faults shelf.new) (origin_of origin.entry)) }
{
    match origin {
        Origin::File(name) => match load(alloc, name, LONGEST_RECORD, shelf)? {
            Loaded::Bytes(bytes) => Ok(Source::Bytes(bytes)),
            Loaded::Refused(answer) => Err(Stop::Refused(answer)),
        },
        Origin::Made(numbers) => Ok(Source::Numbers(numbers)),
    }
}

/// The k-th record from its bytes, where it is one and fits the design.
fn decoded(alloc: Global, k: u64, design: &Design, bytes: &[u8]) -> Result<Record, Stop>
    requires { length bytes.now ≤ longest_record }
    ensures { IsDecoded k design.now bytes.now result }
{
    match decode(alloc, bytes) {
        Ok(rec) => match shape_fits(design, &rec) {
            Ok(()) => Ok(rec),
            Err(wrong) => Err(Stop::Refused(refused(alloc, k, "WrongShape", wrong.at as u64)?)),
        },
        Err(fault) => Err(Stop::Refused(undecoded(alloc, k, fault)?)),
    }
}

/// That the record of a test would be above a limit.
fn too_much(alloc: Global, test: u32, which: &str, n: u64) -> Result<Stop, Memory>
    ensures { IfOk result (IsLine (full_line test which.now 0 n)) }
{
    let text = full(alloc, test as u64, which, 0, n)?;
    Ok(Stop::with(Status::AdmitRefused, text))
}

/// The record of a test, where it is within its limits.
#[tactic(auto, using(crate::proofs::Found::too_many, crate::proofs::Found::too_long))]
fn made(alloc: Global, design: &Design, seed: u64, rounds: u32, test: u32) -> Result<Record, Stop>
    ensures { IsMade design.now seed rounds test result }
{
    match make_record(alloc, design, seed, rounds, test) {
        Ok(rec) => Ok(rec),
        Err(MakeFault::TooManyEvents { n }) => Err(too_much(alloc, test, "events", n)?),
        Err(MakeFault::TooLong { n }) => Err(too_much(alloc, test, "record", n)?),
        Err(MakeFault::Memory) => Err(Stop::Memory),
    }
}

/// The record of the k-th test.
fn kth_made(alloc: Global, k: u64, design: &Design, numbers: Numbers) -> Result<Record, Stop>
    ensures { IsMade design.now numbers.seed numbers.rounds k result }
{
    match u32::try_from(k) {
        Ok(test) => made(alloc, design, numbers.seed, numbers.rounds, test),
        // no words ask for so many tests
        Err(_) => Err(Stop::Memory),
    }
}

/// The k-th record of what was read, where it is one that fits the design, or is within its limits.
#[tactic(auto, using(crate::proofs::Found::decoded_in, crate::proofs::Found::made_in))]
pub fn record_of(alloc: Global, k: u64, design: &Design, source: &Source) -> Result<Record, Stop>
    requires { IsShort source.now }
    ensures { IsFoundIn design.now k source.now result }
{
    match source {
        Source::Bytes(bytes) => decoded(alloc, k, design, bytes.as_slice()),
        Source::Numbers(numbers) => kth_made(alloc, k, design, *numbers),
    }
}
