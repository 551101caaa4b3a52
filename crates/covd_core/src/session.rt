//! The command `session`.
ghost use Rattle.std.specs.Prelude.{◌≡◌, ◌≤◌, ◌⊎◌, [], map, string_bytes, IfOk, OnErr, MatchOption};
ghost use Rattle.std.specs.Arc.{arc_value};
ghost use Rattle.cov_spec.specs.Causes.{Rose};
ghost use Rattle.cov_spec.specs.Told.{Grows, GrowsByFront};
ghost use Rattle.merge_store.specs.Stores.{opening_of, entries_of};
ghost use Rattle.covd_core.specs.Command.{ends_of};
ghost use Rattle.covd_core.specs.Sessions.{IsSessionCommand, IsNoSession, ended_status, Conducted, LeavesRefusal, LeavesSession};

use crate::writing::write_all;
use cov_base::{Link, Memory, OpenGate, Shelf};
use cov_session::{Alone, Ended, session};
use covd_commands::Status;
use covd_commands::answer::Answer;
use covd_commands::loading::{HadDesign, had_design};
use design_data::Design;
use merge_store::Store;
use std::alloc::Global;
use std::sync::Arc;
use std::thread::Threads;

/// The most bytes that a session takes.
const MOST_TAKEN: u64 = 1 << 40;

/// The name behind `session`.
pub(crate) fn session_words(words: &[String]) -> Option<&str>
    ensures { MatchOption result (IsNoSession (map string_bytes words.now)) (λ name. IsSessionCommand (map string_bytes words.now) name.now) }
{
    match words {
        [command, design] => {
            if command.as_str() == "session" {
                Some(design.as_str())
            } else {
                None
            }
        }
        _ => None,
    }
}

/// The status of a session that ended so.
fn status_of(ended: Ended) -> Status
    ensures { result ≡ ended_status ended }
{
    match ended {
        Ended::Bye | Ended::InputEnd => Status::Done,
        Ended::TornFrame => Status::TornFrame,
        Ended::FrameTooLong { .. } => Status::FrameTooLong,
        Ended::SessionTooLong => Status::SessionTooLong,
        Ended::ReadFault => Status::ReadFault,
        Ended::WriteFault => Status::WriteFault,
        Ended::Memory => Status::Memory,
    }
}

/// The one caller of a store over the design without entries.
fn caller_of(alloc: Global, design: &Arc<Design>) -> Result<Alone<Store>, Memory>
    ensures opening { IfOk result (λ port. opening_of port.store ≡ arc_value design.now) }
    ensures entries { IfOk result (λ port. entries_of port.store ≡ []) }
{
    let opening = design.clone()?;
    let store = Store::new(alloc, opening)?;
    Ok(Alone { store })
}

/// Answers the requests that come over the link, over a store without entries.
fn conduct<R: Threads + Sync, L: Link>(
    rt: &R,
    alloc: Global,
    design: Design,
    link: &mut L,
) -> Result<Ended, Memory>
    ensures conducted { let ends = ends_of L.left L.written L.read_faults L.write_faults in
        IfOk result (Conducted design (ends link.old) (ends link.new)) }
    ensures early { OnErr result (link.new ≡ link.old) }
    ensures read_faults { L.read_faults link.old ≤ L.read_faults link.new }
    ensures write_faults { L.write_faults link.old ≤ L.write_faults link.new }
{
    let opening = Arc::new(alloc, design)?;
    let mut port = caller_of(alloc, &opening)?;
    Ok(session(rt, alloc, &opening, &mut port, link, &OpenGate, MOST_TAKEN))
}

/// Writes the line of a design that can't be had.
fn refuse<L: Link>(answer: &Answer, link: &mut L) -> Status
    ensures line { ((result ≡ answer.now.status) × Grows (L.written link.old) (L.written link.new) answer.now.text.items)
        ⊎ ((result ≡ Status.WriteFault) × Rose (L.write_faults link.old) (L.write_faults link.new) × GrowsByFront (L.written link.old) (L.written link.new) answer.now.text.items) }
    ensures left { L.left link.new ≡ L.left link.old }
    ensures read_faults { L.read_faults link.new ≡ L.read_faults link.old }
    ensures write_faults { L.write_faults link.old ≤ L.write_faults link.new }
{
    match write_all(link, &answer.text) {
        Ok(()) => answer.status,
        Err(_) => Status::WriteFault,
    }
}

/// Loads and compiles the design, and serves its session.
pub(crate) fn serve<R: Threads + Sync, F: Shelf, L: Link>(
    rt: &R,
    alloc: Global,
    design: &str,
    shelf: &mut F,
    link: &mut L,
) -> Status
    ensures files { F.files shelf.new ≡ F.files shelf.old }
    ensures shelf_faults { F.faults shelf.old ≤ F.faults shelf.new }
    ensures leaves { let ends = ends_of L.left L.written L.read_faults L.write_faults in
        LeavesSession (F.files shelf.old) (F.faults shelf.old) (F.faults shelf.new) design.now
        (ends link.old) (ends link.new) result }
    ensures read_faults { L.read_faults link.old ≤ L.read_faults link.new }
    ensures write_faults { L.write_faults link.old ≤ L.write_faults link.new }
{
    match had_design(alloc, design, shelf) {
        Err(_) => Status::Memory,
        Ok(HadDesign::Refused(answer)) => refuse(&answer, link),
        Ok(HadDesign::Compiled(design)) => match conduct(rt, alloc, design, link) {
            Ok(ended) => status_of(ended),
            Err(_) => Status::Memory,
        },
    }
}
