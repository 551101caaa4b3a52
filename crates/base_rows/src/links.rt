//! Links and doors in memory, through their traits' bounds.
ghost use Rattle.std.specs.Prelude.{◌<◌};

use crate::streams::three;
use crate::words::{
    bytes_of, calls_of, piece_of, show, show_bytes, show_contents, show_number, split,
};
use cov_base::{
    Door, Failed, Gate, Link, MemDoor, MemLink, OpenGate, Pair, SureLink, SureSink, SureSource,
};
use std::alloc::Global;
use std::io::Print;

/// Writes what a read with room for two bytes brings, behind a blank.
fn read<R: Print, L: Link>(rt: &R, link: &mut L) {
    let mut room = [0u8; 2];
    match link.read(&mut room) {
        Ok(count) => {
            show(rt, " ");
            show_bytes(rt, &room[..count])
        }
        Err(Failed) => show(rt, " !"),
    }
}

/// Writes how many of three bytes are taken.
fn write<R: Print, L: Link>(rt: &R, link: &mut L) {
    match link.write(b"xyz") {
        Ok(count) => show_number(rt, count as i128),
        Err(Failed) => show(rt, " !"),
    }
}

/// Goes by a plan, a letter a call: `r` reads and `w` writes.
pub(crate) fn drive<R: Print, L: Link>(rt: &R, link: &mut L, plan: &str) {
    for step in plan.as_bytes() {
        if *step == b'r' {
            read(rt, link);
        } else {
            write(rt, link);
        }
    }
}

fn sure_link<R: Print>(rt: &R, link: &mut SureLink, plan: &str) {
    drive(rt, link, plan);
    show_contents(rt, link.contents());
}

fn planned_link<R: Print>(rt: &R, link: &mut MemLink, plan: &str) {
    drive(rt, link, plan);
    show_contents(rt, Some(link.contents()));
}

/// A link of the contents that fails at these reads and writes, as `0,2/1`.
fn planned(alloc: Global, piece: usize, fails: &str, contents: Vec<u8>) -> MemLink
    requires { 0 < piece }
{
    let (reads, writes) = split(fails, '/');
    let (reads, writes) = (calls_of(alloc, reads), calls_of(alloc, writes));
    MemLink::new(alloc, contents, piece, reads, writes)
}

/// PIECE FAILS CONTENTS PLAN: goes by the plan on a link that fails at the reads and writes FAILS, or at none where it is
/// `sure`, and then what was written.
pub(crate) fn link<R: Print>(rt: &R, alloc: Global, row: &str) {
    let (piece, fails, rest) = three(row);
    let (contents, plan) = split(rest, ' ');
    let piece = piece_of(piece);
    let contents = bytes_of(alloc, contents);
    if fails == "sure" {
        return sure_link(rt, &mut SureLink::new(alloc, contents, piece), plan);
    }
    planned_link(rt, &mut planned(alloc, piece, fails, contents), plan);
}

/// Goes by a plan on a source and a sink together, and then what the sink has.
fn drive_both<R: Print>(rt: &R, source: &mut SureSource, sink: &mut SureSink, plan: &str) {
    drive(rt, &mut Pair { source, sink }, plan);
    show_contents(rt, sink.contents());
}

/// CONTENTS PLAN: goes by the plan on the link of a source and a sink.
pub(crate) fn pair<R: Print>(rt: &R, alloc: Global, row: &str) {
    let (contents, plan) = split(row, ' ');
    let contents = bytes_of(alloc, contents);
    drive_both(
        rt,
        &mut SureSource::new(contents, 9),
        &mut SureSink::new(alloc, 9),
        plan,
    )
}

/// Writes what two reads from the next link bring, on both sides of a gate.
fn knock<R: Print, D: Door>(rt: &R, door: &mut D, gate: &impl Gate)
where
    D::Wire: Drop,
{
    match door.accept() {
        Ok(mut link) => {
            gate.pass(1);
            let done = drive(rt, &mut link, "rr");
            gate.pass(2);
            done
        }
        Err(Failed) => show(rt, " !"),
    }
}

/// Adds a link of the contents.
fn add_link(alloc: Global, links: &mut Vec<MemLink>, contents: &str) {
    let contents = bytes_of(alloc, contents);
    let link = MemLink::new(alloc, contents, 9, Vec::new(alloc), Vec::new(alloc));
    let _ = links.push(link);
}

/// A link for each of the contents.
fn links_of(alloc: Global, contents: &str) -> Vec<MemLink> {
    let mut links = Vec::new(alloc);
    for word in contents.split_whitespace() {
        add_link(alloc, &mut links, word);
    }
    links
}

/// Five calls of a door.
fn knock_all<R: Print>(rt: &R, door: &mut MemDoor) {
    for _ in 0u8..5 {
        knock(rt, door, &OpenGate);
    }
}

/// FAILS CONTENTS ..: a door that fails at the calls FAILS hands out a link for each of the contents.
pub(crate) fn door<R: Print>(rt: &R, alloc: Global, row: &str) {
    let (fails, contents) = split(row, ' ');
    let links = links_of(alloc, contents);
    let failing = calls_of(alloc, fails);
    knock_all(rt, &mut MemDoor::new(links, failing));
}
