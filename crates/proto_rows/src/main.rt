//! Street: worked rows.
//!
//! Worked rows of `cov_proto`: each line of standard input is a call with its arguments, bytes as hexadecimal digits, and is written
//! again with its answer behind ` =`. A body that is a message is read, and its frame written; of another the place of its first fault
//! is told. The file `stdout` has the answers, written from the form and not by the program.
#![tactic(auto)]

ghost use Rattle.std.specs.Prelude.{◌≡◌, ◌≤◌, length};
ghost use Rattle.cov_proto.specs.Frames.{longest_body};
ghost use Rattle.cov_proto.specs.Limits.{IsRequest, IsReply};
ghost use Rattle.cov_proto.specs.Spelled.{request_spelled, reply_spelled};

use cov_proto::{
    Body, FrameStep, LONGEST_BODY, Reply, Request, RequestFault, next_frame, read_reply,
    read_request, write_reply, write_request,
};
use std::alloc::Global;
use std::io;
use std::io::{Input, Print};
use std::process::ExitCode;
use ucis_model::Answer;

fn show_bytes<R: Print>(rt: &R, alloc: Global, bytes: &[u8]) -> Option<()> {
    let text = hex::encode(alloc, bytes).ok()?;
    print!(rt; " {text}").ok()
}

/// What the bytes begin with.
fn show_step<R: Print>(rt: &R, bytes: &[u8]) -> Option<()> {
    match next_frame(bytes) {
        FrameStep::More => print!(rt; " more").ok(),
        FrameStep::Body { len } => print!(rt; " body {len}").ok(),
        FrameStep::BadLength { len } => print!(rt; " bad length {len}").ok(),
    }
}

fn show_fault<R: Print>(rt: &R, fault: RequestFault) -> Option<()> {
    match fault {
        RequestFault::BadMessage { at } => print!(rt; " bad {at}").ok(),
        RequestFault::Memory => None,
    }
}

/// The frame of a request.
fn show_request_frame<R: Print>(rt: &R, alloc: Global, request: &Request) -> Option<()>
    requires spelled { IsRequest request.now }
    requires short { length (request_spelled request.now) ≤ longest_body }
{
    let mut out = Vec::new(alloc);
    write_request(request, &mut out).ok()?;
    show_bytes(rt, alloc, out.as_slice())
}

/// The frame of the request that the body spells.
fn show_request<R: Print>(rt: &R, alloc: Global, body: &[u8]) -> Option<()> {
    if body.len() > LONGEST_BODY as usize {
        return None;
    }
    match read_request(alloc, body) {
        Ok(request) => show_request_frame(rt, alloc, &request),
        Err(fault) => show_fault(rt, fault),
    }
}

/// The frame of a reply, whose body has so many bytes.
fn show_reply_frame<R: Print>(rt: &R, alloc: Global, reply: &Reply, size: usize) -> Option<()>
    requires spelled { IsReply reply.now }
    requires size { length (reply_spelled reply.now) ≡ size }
    requires short { size ≤ longest_body }
{
    let mut out = Vec::with_capacity(alloc, size + 4).ok()?;
    write_reply(reply, &mut out);
    show_bytes(rt, alloc, out.as_slice())
}

/// The frame of the reply that the body spells.
fn show_reply<R: Print>(rt: &R, alloc: Global, body: &[u8]) -> Option<()> {
    if body.len() > LONGEST_BODY as usize {
        return None;
    }
    match read_reply(alloc, body) {
        Ok(reply) => show_reply_frame(rt, alloc, &reply, body.len()),
        Err(fault) => show_fault(rt, fault),
    }
}

#[tactic(auto, unfolding(cov_proto::specs::Spelled::request_spelled))]
fn show_hello<R: Print>(rt: &R, alloc: Global, point: u64) -> Option<()> {
    show_request_frame(rt, alloc, &Request::Hello { point })
}

#[tactic(auto, unfolding(cov_proto::specs::Spelled::request_spelled))]
fn show_bye<R: Print>(rt: &R, alloc: Global) -> Option<()> {
    show_request_frame(rt, alloc, &Request::Bye)
}

#[tactic(auto, unfolding(cov_proto::specs::Spelled::reply_spelled, cov_proto::specs::Spelled::body_fields, cov_proto::specs::Spelled::answer_fields))]
fn show_welcome<R: Print>(rt: &R, alloc: Global, bins: u32) -> Option<()> {
    let body = Body::Store(Answer::Welcome { bins });
    show_reply_frame(rt, alloc, &Reply { point: 0, body }, 13)
}

#[tactic(auto, unfolding(cov_proto::specs::Spelled::reply_spelled, cov_proto::specs::Spelled::body_fields, cov_proto::specs::Spelled::answer_fields))]
fn show_farewell<R: Print>(rt: &R, alloc: Global) -> Option<()> {
    let body = Body::Farewell;
    show_reply_frame(rt, alloc, &Reply { point: 0, body }, 9)
}

fn answer_bytes<R: Print>(rt: &R, alloc: Global, call: &str, digits: &str) -> Option<()> {
    let bytes = hex::decode(alloc, digits).ok()?;
    match call {
        "frame" => show_step(rt, bytes.as_slice()),
        "request" => show_request(rt, alloc, bytes.as_slice()),
        "reply" => show_reply(rt, alloc, bytes.as_slice()),
        _ => None,
    }
}

/// Writes the answer to a row; None where the row can't be read or memory ran out.
fn answer<R: Print>(rt: &R, alloc: Global, line: &str) -> Option<()> {
    let (call, rest) = line.split_once(' ')?;
    match call {
        "hello" => show_hello(rt, alloc, rest.parse().ok()?),
        "bye" => show_bye(rt, alloc),
        "welcome" => show_welcome(rt, alloc, rest.parse().ok()?),
        "farewell" => show_farewell(rt, alloc),
        _ => answer_bytes(rt, alloc, call, rest),
    }
}

/// Writes a row with its answer.
fn row<R: Print>(rt: &R, alloc: Global, line: &str) -> io::Result<()> {
    print!(rt; "{line} =")?;
    match answer(rt, alloc, line) {
        Some(()) => println!(rt; ""),
        None => println!(rt; " no answer"),
    }
}

/// Writes all rows.
fn rows<R: Input + Print>(rt: &R, alloc: Global) -> io::Result<()> {
    for line in rt.lines(alloc) {
        row(rt, alloc, line?.as_str())?;
    }
    Ok(())
}

fn main(rt: HostRuntime) -> ExitCode {
    ExitCode::from(if rows(&rt, rt.alloc()).is_ok() { 0 } else { 1 })
}
