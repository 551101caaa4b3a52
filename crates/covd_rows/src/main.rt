//! Street: worked rows.
//!
//! Worked rows of whole commands. A line `design TEXT` makes the file `d` and a line `dump TEXT` the file `v`, where `\n`
//! stands for a newline; a line `files NAME` takes for them NAME.cov and NAME.vcd, which a simulator wrote. A line
//! `bytes HEX` makes the file `r`, and a line `with FROM TO HEX` that record with other bytes in place of those from FROM
//! up to TO. A line `as NAME` keeps the record as the file NAME too, and a line `blanks NAME COUNT` keeps a file of so many
//! blanks. A line `failing READS WRITES WORDS` runs the words where these reads of files and these writes fail, each a list
//! of numbers of calls, counted from 0 and separated by commas, or `-`. What a command behind `keep` or `digest` writes is
//! the file `r` from then on, and is shown in hexadecimal, or by its length and SHA-256. A line `run WORDS` runs the words
//! over the files of the folder, and the program ends with the last of their statuses. A line `session ROW` is a row of
//! sessions, whose forms `command_rows` tells in its `sessions`. Every other line is the words of a `covd` over the files of
//! the lines before. Each line is written again, a row of sessions without its first word; behind a command follow its text
//! and its status. The file `stdout` has the replies of sessions written from the form and not by the program.
#![tactic(auto)]

use command_rows::{
    Files, Status, Table, change_record, command, failing_command, keep_blanks, keep_bytes,
    keep_digest, keep_record, real_command, say, session, split, take_design, take_dump,
    take_files, take_record,
};
use std::alloc::Global;
use std::io::{Input, Print};
use std::process::ExitCode;
use std::rt::Files as System;
use std::sync::Wait;
use std::thread::Threads;

/// Takes a row of a command, whose answer is written.
fn command_row<R: Threads + Sync + Print>(
    rt: &R,
    alloc: Global,
    files: &mut Files,
    call: &str,
    rest: &str,
    line: &str,
) {
    match call {
        "keep" => keep_bytes(rt, alloc, files, rest),
        "digest" => keep_digest(rt, alloc, files, rest),
        "failing" => {
            say(rt, line);
            failing_command(rt, alloc, files, rest);
        }
        _ => command(rt, alloc, files, line),
    }
}

/// Takes a row of files: whether it is one.
fn is_file_row<R: System + AllocGlobal>(
    rt: &R,
    alloc: Global,
    files: &mut Files,
    call: &str,
    rest: &str,
) -> bool {
    match call {
        "design" => take_design(alloc, files, rest),
        "dump" => take_dump(alloc, files, rest),
        "files" => take_files(rt, files, rest),
        "bytes" => take_record(alloc, files, rest),
        "with" => change_record(alloc, files, rest),
        "as" => keep_record(alloc, files, rest),
        "blanks" => keep_blanks(alloc, files, rest),
        _ => return false,
    }
    true
}

/// Takes a row: files, or a command.
fn row<R: Threads + Sync + System + Print + AllocGlobal>(
    rt: &R,
    files: &mut Files,
    call: &str,
    rest: &str,
    line: &str,
) {
    if is_file_row(rt, rt.alloc(), files, call, rest) {
        say(rt, line);
    } else {
        command_row(rt, rt.alloc(), files, call, rest, line);
    }
}

/// What the rows have made so far.
#[derive(Drop)]
struct Made {
    files: Files,
    table: Table,
    /// The status of the last command over the files of the folder.
    last: Status,
}

/// Takes a row of any kind.
fn any_row<R: Threads + Wait + Sync + System + Print + AllocGlobal>(
    rt: &R,
    made: &mut Made,
    line: &str,
) {
    let (call, rest) = split(line);
    match call {
        "run" => made.last = real_command(rt, rest),
        "session" => session(rt, rt.alloc(), &mut made.table, rest),
        _ => row(rt, &mut made.files, call, rest, line),
    }
}

/// Takes all rows.
fn rows<R: Threads + Wait + Sync + System + Input + Print + AllocGlobal>(rt: &R, made: &mut Made) {
    for line in rt.lines(rt.alloc()) {
        if let Ok(line) = line {
            any_row(rt, made, line.as_str());
        }
    }
}

fn main(rt: HostRuntime) -> ExitCode {
    let mut made = Made {
        files: Files::new(rt.alloc()),
        table: Table::new(rt.alloc()),
        last: Status::Done,
    };
    rows(&rt, &mut made);
    ExitCode::from(made.last.number())
}
