//! Street: program.
//!
//! The program `covd`: its words, files and standard streams.
#![tactic(auto)]

mod ending;
mod serving;

use cov_base::Pair;
use cov_net::{FileShelf, StdSink, StdSource};
use covd_core::{Status, run};
use covd_hints::print_hint;
use ending::{ended, given};
use serving::{is_serve, serve};
use std::process::ExitCode;
use std::rt::Files;
use std::thread::Threads;
use std::{env, io};
use text_place::{text_of, topic_of};

/// The words after the program's name.
fn words_of(rt: &HostRuntime) -> io::Result<Vec<String>> {
    let mut words = Vec::new(rt.alloc());
    for word in env::args(rt)?.skip(1) {
        words.push(word)?;
    }
    Ok(words)
}

/// Does what the words say over the files of the system and the standard streams.
fn run_words<R: Threads + Sync + Files + Input + Print + Eprint + AllocGlobal>(
    rt: &R,
    words: &[String],
) -> Status {
    let mut shelf = FileShelf::new(rt);
    let mut source = StdSource::new(rt.reader());
    let mut sink = StdSink::new(io::writer(rt));
    let mut link = Pair {
        source: &mut source,
        sink: &mut sink,
    };
    let status = run(rt, rt.alloc(), words, &mut shelf, &mut link);
    print_hint(rt, words, status);
    status
}

fn main(rt: HostRuntime) -> ExitCode {
    let number = match given(rt.alloc(), words_of(&rt)) {
        Ok(words) => match topic_of(&words) {
            Some(topic) => ended(&rt.print(text_of(topic))).number(),
            None if is_serve(&words) => serve(&rt, &words).number(),
            None => run_words(&rt, &words).number(),
        },
        Err(status) => status.number(),
    };
    ExitCode::from(number)
}
