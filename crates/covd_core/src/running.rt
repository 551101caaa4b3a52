//! The program's one call.
ghost use Rattle.std.specs.Prelude.{◌≡◌, ◌≤◌, map, string_bytes};
ghost use Rattle.covd_core.specs.Command.{ends_of, HasOneAnswer};
ghost use Rattle.covd_core.specs.Sessions.{Runs, HasOneDesign};

use crate::printing::print;
use crate::session::{serve, session_words};
use cov_base::{Link, Shelf};
use covd_commands::Status;
use std::alloc::Global;
use std::thread::Threads;

/// Does what the words say over the files of the shelf and the link.
///
/// The words are those after the program's name. The commands that print are `check DESIGN`, which prints the bins of the
/// design; `tables DESIGN`, which prints what a writer of its records has to announce; `count DESIGN RECORD`, which prints
/// how often the record hits each bin; `report DESIGN RECORD ..` and `make DESIGN SEED EVENTS TESTS`, which print the report
/// of a store that is filled with the records of files or of a generator; `export FORM DESIGN RECORD ..`, which prints such
/// a store in the form `bins`, `holes`, `json`, `ucis` or `html`; and `record DESIGN DUMP SCOPE ID`, which writes the bytes
/// of the record of a value change dump. Those that fill a store take options behind their own word. What they write is
/// built whole before its first byte is written, and nothing is read. `session DESIGN` answers the requests that come over
/// the link, over a store that begins without tests, until a Bye or the end of what comes. Threads are started to bin
/// records and to rank tests.
pub fn run<R: Threads + Sync, F: Shelf, L: Link>(
    rt: &R,
    alloc: Global,
    words: &[String],
    shelf: &mut F,
    link: &mut L,
) -> Status
    // Status and text are those of the words and files, and replies those of the requests; memory alone is free.
    ensures leaves { let ends = ends_of L.left L.written L.read_faults L.write_faults in
        Runs (map string_bytes words.now)
        (F.files shelf.old) (F.faults shelf.old) (F.faults shelf.new)
        (ends link.old) (ends link.new) result }
    ensures one_answer { HasOneAnswer (map string_bytes words.now)
        (F.files shelf.old) (F.faults shelf.old) (F.faults shelf.new) }
    ensures one_design { HasOneDesign (F.files shelf.old) (F.faults shelf.old)
        (F.faults shelf.new) }
    // What the call leaves alone.
    ensures files { F.files shelf.new ≡ F.files shelf.old }
    ensures shelf_faults { F.faults shelf.old ≤ F.faults shelf.new }
    ensures read_faults { L.read_faults link.old ≤ L.read_faults link.new }
    ensures write_faults { L.write_faults link.old ≤ L.write_faults link.new }
{
    match session_words(words) {
        Some(design) => serve(rt, alloc, design, shelf, link),
        None => print(rt, alloc, words, shelf, link),
    }
}
