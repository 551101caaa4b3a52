//! How the server begins: its words, and the design with its text.
ghost use Rattle.std.specs.Prelude.{◌≡◌, ◌≤◌, length, map, string_bytes, IfOk, IfSome};
ghost use Rattle.covd_core.specs.Command.{ends_of};
ghost use Rattle.covd_core.specs.Starts.{IsHadCompiled, IsBegun, IsServable, ready_words, Starts};

use crate::writing::write_all;
use cov_base::{Link, Memory, Shelf};
use cov_ground::limits::LONGEST_DESIGN;
use cov_serve::{ServeWords, serve_words};
use covd_commands::answer::Answer;
use covd_commands::loading::{Loaded, load, uncompiled};
use covd_commands::texts::bad_words;
use covd_commands::{Compiled, Status};
use std::alloc::Global;

/// A text with its design, or the answer that it can't be had.
pub(crate) enum HadCompiled {
    Compiled(Compiled),
    Refused(Answer),
}

/// What the words say with the design, or the answer that refuses them.
pub(crate) enum Begun {
    Ready(ServeWords, Compiled),
    Refused(Answer),
}

/// Loads and compiles, and keeps the text.
pub(crate) fn had_compiled<F: Shelf>(
    alloc: Global,
    name: &str,
    shelf: &mut F,
) -> Result<HadCompiled, Memory>
    ensures same { F.files shelf.new ≡ F.files shelf.old }
    ensures later { F.faults shelf.old ≤ F.faults shelf.new }
    ensures had { IfOk result (IsHadCompiled (F.files shelf.old) (F.faults shelf.old)
        (F.faults shelf.new) name.now) }
{
    let text = match load(alloc, name, LONGEST_DESIGN, shelf)? {
        Loaded::Bytes(text) => text,
        Loaded::Refused(answer) => return Ok(HadCompiled::Refused(answer)),
    };
    match Compiled::of(alloc, &text) {
        Ok(compiled) => Ok(HadCompiled::Compiled(compiled)),
        Err(fault) => Ok(HadCompiled::Refused(uncompiled(alloc, fault)?)),
    }
}

fn begin<F: Shelf>(alloc: Global, words: &[String], shelf: &mut F) -> Result<Begun, Memory>
    ensures same { F.files shelf.new ≡ F.files shelf.old }
    ensures later { F.faults shelf.old ≤ F.faults shelf.new }
    ensures begun { IfOk result (IsBegun (map string_bytes words.now) (F.files shelf.old)
        (F.faults shelf.old) (F.faults shelf.new)) }
    ensures servable { IfOk result (λ b. IfSome (ready_words b) (IsServable (length words.now))) }
{
    let Some(said) = serve_words(words) else {
        let text = bad_words(alloc)?;
        return Ok(Begun::Refused(Answer {
            status: Status::BadWords,
            text,
        }));
    };
    match had_compiled(alloc, words[said.design as usize].as_str(), shelf)? {
        HadCompiled::Compiled(compiled) => Ok(Begun::Ready(said, compiled)),
        HadCompiled::Refused(answer) => Ok(Begun::Refused(answer)),
    }
}

/// What the words of the server say, and the design that they name, with its text. Where it refuses, its one line is
/// written to the link, and the status is that of `run`: words of none of the forms, a design that is refused or can't be
/// had, a write that failed, or want of memory.
///
/// # Errors
/// The status with which the server is to end.
pub fn serve_start<F: Shelf, L: Link>(
    alloc: Global,
    words: &[String],
    shelf: &mut F,
    link: &mut L,
) -> Result<(ServeWords, Compiled), Status>
    ensures starts { let ends = ends_of L.left L.written L.read_faults L.write_faults in
        Starts (map string_bytes words.now)
        (F.files shelf.old) (F.faults shelf.old) (F.faults shelf.new)
        (ends link.old) (ends link.new) result }
    ensures servable { IfOk result (λ p. IsServable (length words.now) p.0) }
    ensures files { F.files shelf.new ≡ F.files shelf.old }
    ensures shelf_faults { F.faults shelf.old ≤ F.faults shelf.new }
    ensures left { L.left link.new ≡ L.left link.old }
    ensures read_faults { L.read_faults link.new ≡ L.read_faults link.old }
    ensures write_faults { L.write_faults link.old ≤ L.write_faults link.new }
{
    match begin(alloc, words, shelf) {
        Err(_) => Err(Status::Memory),
        Ok(Begun::Ready(said, compiled)) => Ok((said, compiled)),
        Ok(Begun::Refused(Answer { status, text })) => match write_all(link, &text) {
            Ok(()) => Err(status),
            Err(_) => Err(Status::WriteFault),
        },
    }
}
