//! The commands that print.
ghost use Rattle.std.specs.Prelude.{◌≡◌, ◌≤◌, map, string_bytes, IfOk, IfNone, MatchOption};
ghost use Rattle.covd_core.specs.Command.{FillAnswers, Answers, ends_of, Leaves, HasOneAnswer};
ghost use Rattle.covd_commands.specs.Forms.{IsNoReport, IsNoExport, IsNoMake};

use crate::report::{Asked, report};
use crate::writing::write_all;
use cov_base::{Link, Memory, Shelf};
use covd_commands::Status;
use covd_commands::answer::Answer;
use covd_commands::count::{count, count_words};
use covd_commands::forms::{Form, export_words, make_words, report_words};
use covd_commands::listing::{list, list_words};
use covd_commands::origins::Origins;
use covd_commands::record::{record_dump, record_words};
use covd_commands::texts::bad_words;
use std::alloc::Global;
use std::thread::Threads;

/// The answer of a command that fills a store; None where the words are none.
fn filled<R: Threads + Sync, F: Shelf>(
    rt: &R,
    alloc: Global,
    words: &[String],
    shelf: &mut F,
) -> Option<Result<Answer, Memory>>
    ensures same { F.files shelf.new ≡ F.files shelf.old }
    ensures later { F.faults shelf.old ≤ F.faults shelf.new }
    ensures answer { MatchOption result (IsNoReport (map string_bytes words.now) × IsNoExport (map string_bytes words.now)
        × IsNoMake (map string_bytes words.now))
        (λ done. IfOk done (λ a. FillAnswers (map string_bytes words.now) (F.files shelf.old) (F.faults shelf.old) (F.faults shelf.new) a.status a.text.items)) }
    ensures untouched { IfNone result (shelf.new ≡ shelf.old) }
{
    if let Some((options, design, names)) = report_words(words) {
        let asked = Asked {
            options,
            form: Form::Report,
            design,
            origins: Origins::Files(names),
        };
        return Some(report(rt, alloc, asked, shelf));
    }
    if let Some((options, form, design, names)) = export_words(words) {
        let asked = Asked {
            options,
            form,
            design,
            origins: Origins::Files(names),
        };
        return Some(report(rt, alloc, asked, shelf));
    }
    match make_words(words) {
        Some((options, design, numbers)) => {
            let asked = Asked {
                options,
                form: Form::Report,
                design,
                origins: Origins::Made(numbers),
            };
            Some(report(rt, alloc, asked, shelf))
        }
        None => None,
    }
}

/// The status and the text of the words.
fn answer<R: Threads + Sync, F: Shelf>(
    rt: &R,
    alloc: Global,
    words: &[String],
    shelf: &mut F,
) -> Result<Answer, Memory>
    ensures same { F.files shelf.new ≡ F.files shelf.old }
    ensures later { F.faults shelf.old ≤ F.faults shelf.new }
    ensures answer { IfOk result (λ a. Answers (map string_bytes words.now) (F.files shelf.old) (F.faults shelf.old) (F.faults shelf.new) a.status a.text.items) }
{
    if let Some(done) = filled(rt, alloc, words, shelf) {
        return done;
    }
    if let Some((listing, design)) = list_words(words) {
        return list(alloc, listing, design, shelf);
    }
    if let Some(words) = record_words(words) {
        return record_dump(alloc, words, shelf);
    }
    match count_words(words) {
        Some((design, rec)) => count(alloc, design, rec, shelf),
        None => {
            let text = bad_words(alloc)?;
            Ok(Answer {
                status: Status::BadWords,
                text,
            })
        }
    }
}

/// Does what the words of a command that prints say over the files of the shelf, and writes its text to the link. What is
/// written is built whole before its first byte is written.
pub(crate) fn print<R: Threads + Sync, F: Shelf, L: Link>(
    rt: &R,
    alloc: Global,
    words: &[String],
    shelf: &mut F,
    link: &mut L,
) -> Status
    ensures leaves { let ends = ends_of L.left L.written L.read_faults L.write_faults in
        Leaves (map string_bytes words.now) (F.files shelf.old) (F.faults shelf.old) (F.faults shelf.new)
        (ends link.old) (ends link.new) result }
    ensures one_answer { HasOneAnswer (map string_bytes words.now) (F.files shelf.old) (F.faults shelf.old) (F.faults shelf.new) }
    ensures files { F.files shelf.new ≡ F.files shelf.old }
    ensures shelf_faults { F.faults shelf.old ≤ F.faults shelf.new }
    ensures left { L.left link.new ≡ L.left link.old }
    ensures read_faults { L.read_faults link.new ≡ L.read_faults link.old }
    ensures write_faults { L.write_faults link.old ≤ L.write_faults link.new }
{
    match answer(rt, alloc, words, shelf) {
        Err(_) => Status::Memory,
        Ok(Answer { status, text }) => match write_all(link, &text) {
            Ok(()) => status,
            Err(_) => Status::WriteFault,
        },
    }
}
