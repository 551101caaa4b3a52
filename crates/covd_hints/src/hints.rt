//! Hints on how a command ended.

use crate::admission_hints::{on_admission, on_making};
use crate::commands::{command_of, design_of, dump_of, form_of, records_of, waivers_of};
use crate::design_hints::on_design;
use crate::dump_hints::on_dump;
use crate::file_hints::{file_hint, first_file_hint};
use crate::kind_hints::Wanted;
use crate::record_hints::on_records;
use covd_core::Status;
use std::alloc::Global;
use std::io;
use std::rt::Files;

/// The hint on words that are no command.
fn words_hint(alloc: Global, words: &[String]) -> Option<String> {
    let form = form_of(command_of(words));
    format!(in alloc; "the words are: {form}; covd --help says more\n").ok()
}

/// The hint on the first file that can't be had: the design text, the waivers, the dump, the records.
fn on_files<R: Files + AllocGlobal>(rt: &R, words: &[String]) -> Option<String> {
    let hint = file_hint(rt, design_of(words)?, Wanted::Design);
    if hint.is_some() {
        return hint;
    }
    if let Some(waivers) = waivers_of(words) {
        let hint = file_hint(rt, waivers, Wanted::Waivers);
        if hint.is_some() {
            return hint;
        }
    }
    match dump_of(words) {
        Some(dump) => file_hint(rt, dump, Wanted::Dump),
        None => first_file_hint(rt, records_of(words), Wanted::Record),
    }
}

/// The hint on a record that isn't admitted.
fn on_refused_admission<R: Files + AllocGlobal>(rt: &R, words: &[String]) -> Option<String> {
    if command_of(words) == "make" {
        on_making(rt.alloc())
    } else {
        on_admission(rt, records_of(words))
    }
}

/// The hint on the dump of `record DESIGN DUMP SCOPE ID`.
fn on_refused_dump<R: Files + AllocGlobal>(rt: &R, words: &[String]) -> Option<String> {
    let [_, design, dump, scope, id] = words else {
        return None;
    };
    on_dump(
        rt,
        design.as_str(),
        dump.as_str(),
        scope.as_str(),
        id.as_str(),
    )
}

/// The hint on coverage overall that is below the goal.
fn below_goal(alloc: Global) -> Option<String> {
    format!(in alloc;
        "coverage overall is below the goal: covd export holes lists the bins that are missing, with the same design and records\n"
    ).ok()
}

/// The hint on records that were left out.
fn left_out(alloc: Global, words: &[String]) -> Option<String> {
    if command_of(words) == "export" {
        return format!(in alloc;
            "records were left out: covd report --keep-going with the same design and records has a line left N CAUSE NAME for each\n"
        ).ok();
    }
    format!(in alloc; "records were left out: see the lines left N CAUSE NAME\n").ok()
}

/// The hint on waivers that are refused.
fn on_waivers(alloc: Global) -> Option<String> {
    format!(in alloc;
        "a line of the file of waivers is: waive PATTERN \"REASON\" [by NAME] [on YYYY-MM-DD], or a comment behind #; the number is how many bytes stand before the fault\n"
    ).ok()
}

/// The hint on how a command with these words ended.
fn hint_on<R: Files + AllocGlobal>(rt: &R, words: &[String], status: Status) -> Option<String> {
    match status {
        Status::BadWords => words_hint(rt.alloc(), words),
        Status::DesignRefused => on_design(rt, design_of(words)?),
        Status::RecordRefused => on_records(rt, design_of(words)?, records_of(words)),
        Status::AdmitRefused => on_refused_admission(rt, words),
        Status::DumpRefused => on_refused_dump(rt, words),
        Status::ShelfFault | Status::FileTooLong => on_files(rt, words),
        Status::Partly => left_out(rt.alloc(), words),
        Status::BelowGoal => below_goal(rt.alloc()),
        Status::WaiversRefused => on_waivers(rt.alloc()),
        _ => None,
    }
}

/// Prints why a command with these words ended so, where there is more to say than its line and status do. Of the files
/// that the words name, regular ones alone are read again.
pub fn print_hint<R: Files + Eprint + AllocGlobal>(rt: &R, words: &[String], status: Status) {
    // a hint that can't be printed is no failure of the command
    if status == Status::Memory {
        let _ = rt.eprint("out of memory\n");
    } else if let Some(hint) = hint_on(rt, words, status) {
        let _ = rt.eprint(hint.as_str());
    }
}

/// Prints why an address can't be listened on.
pub fn print_address_hint<R: Eprint>(rt: &R, address: &str, error: &io::Error) {
    // a hint that can't be printed is no failure of the command
    let _ = eprint!(rt;
        "{address} can't be listened on: {error}; ADDR is HOST:PORT, as 127.0.0.1:7000\n"
    );
}
