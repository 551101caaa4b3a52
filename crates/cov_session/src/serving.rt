//! The frames of a stream, one after the other.
ghost use Rattle.std.specs.Prelude.{◌≡◌, ◌≤◌, ◌<◌, [], length, true, OnOk, OnErr, vec_capacity};
ghost use Rattle.std.specs.Arc.{arc_value};
ghost use Rattle.cov_spec.specs.Causes.{Rose, HasCause};
ghost use Rattle.cov_spec.specs.Told.{Grows, GrowsByFront};
ghost use Rattle.cov_proto.specs.Frames.{HasFrame};
ghost use Rattle.session_table.specs.Histories.{IsHistory};
ghost use Rattle.session_table.specs.Says.{place_of};
ghost use Rattle.cov_session.specs.Fills.{longest_frame};
ghost use Rattle.cov_session.specs.Ends.{Stops, StopsByFault, Framed};
ghost use Rattle.cov_session.specs.Streams.{Session};

use crate::Ended;
use crate::inbox::{Inbox, LONGEST_FRAME};
use cov_base::{Failed, Gate, Link};
use cov_proto::{FrameStep, next_frame, write_reply};
use design_data::Design;
use session_table::{Port, Talk, answer};
use std::alloc::Global;
use std::sync::Arc;
use std::thread::Threads;

/// Why the frames at hand end the session.
#[derive(Clone, Copy)]
pub(crate) enum Stop {
    Bye,
    FrameTooLong { len: u32 },
    WriteFault,
}

// Writes all of the bytes, or a part of them from the front where the link fails.
fn write_all<L: Link>(link: &mut L, bytes: &[u8]) -> Result<(), Failed>
    ensures ok { OnOk result (Grows (L.written link.old) (L.written link.new) bytes.now) }
    ensures err { OnErr result (GrowsByFront (L.written link.old) (L.written link.new) bytes.now) }
    ensures left { L.left link.new ≡ L.left link.old }
    ensures cause { HasCause (L.write_faults link.old) (L.write_faults link.new) result }
    ensures same_faults { L.read_faults link.new ≡ L.read_faults link.old }
{
    let mut at = 0;
    while at < bytes.len() {
        at += link.write(&bytes[at..])?;
    }
    Ok(())
}

// Answers the frame that stands in front. Whether it was a Bye.
fn answer_frame<P: Port, L: Link, R: Threads + Sync, G: Gate>(
    rt: &R,
    alloc: Global,
    opening: &Design,
    port: &mut P,
    link: &mut L,
    gate: &G,
    inbox: &mut Inbox,
    out: &mut Vec<u8>,
    talk: &mut Talk,
    len: u32,
) -> Result<bool, Failed>
    requires opening { P.opening port.old ≡ opening.now }
    requires within { talk.old.point ≤ length (P.seen port.old) }
    requires room { longest_frame ≤ vec_capacity out.old }
    requires frame { HasFrame len inbox.old }
    ensures rest { P.rest port.new ≡ P.rest port.old }
    ensures opening { P.opening port.new ≡ P.opening port.old }
    ensures caller { P.caller port.new ≡ P.caller port.old }
    ensures room { longest_frame ≤ vec_capacity out.new }
    ensures less { length inbox.new < length inbox.old }
    ensures cause { HasCause (L.write_faults link.old) (L.write_faults link.new) result }
    ensures same_faults { L.read_faults link.new ≡ L.read_faults link.old }
    ensures framed { Framed (P.opening port.old) (P.caller port.old)
        (record {
          left = L.left link.old;
          held = inbox.old;
          place = place_of talk.old;
          seen = P.seen port.old;
          own = P.own port.old;
          written = L.written link.old;
        })
        (record {
          left = L.left link.new;
          held = inbox.new;
          place = place_of talk.new;
          seen = P.seen port.new;
          own = P.own port.new;
          written = L.written link.new;
        })
        result }
{
    let end = 4 + len as usize;
    let said = answer(
        rt,
        alloc,
        opening,
        port,
        talk,
        &inbox.as_slice()[4..end],
        gate,
    );
    out.clear();
    write_reply(&said.reply, out);
    inbox.advance(end);
    match write_all(link, out.as_slice()) {
        Ok(()) => Ok(said.bye),
        Err(failed) => Err(failed),
    }
}

// Answers all frames at hand.
fn answer_all<P: Port, L: Link, R: Threads + Sync, G: Gate>(
    rt: &R,
    alloc: Global,
    opening: &Design,
    port: &mut P,
    link: &mut L,
    gate: &G,
    inbox: &mut Inbox,
    out: &mut Vec<u8>,
    talk: &mut Talk,
) -> Result<(), Stop>
    requires opening { P.opening port.old ≡ opening.now }
    requires within { talk.old.point ≤ length (P.seen port.old) }
    requires room { longest_frame ≤ vec_capacity out.old }
    ensures rest { P.rest port.new ≡ P.rest port.old }
    ensures opening { P.opening port.new ≡ P.opening port.old }
    ensures caller { P.caller port.new ≡ P.caller port.old }
    ensures room { longest_frame ≤ vec_capacity out.new }
    ensures later { L.write_faults link.old ≤ L.write_faults link.new }
    ensures cause { StopsByFault (L.write_faults link.old) (L.write_faults link.new) result }
    ensures same_faults { L.read_faults link.new ≡ L.read_faults link.old }
    ensures stops { Stops (P.opening port.old) (P.caller port.old)
        (record {
          left = L.left link.old;
          held = inbox.old;
          place = place_of talk.old;
          seen = P.seen port.old;
          own = P.own port.old;
          written = L.written link.old;
        })
        (record {
          left = L.left link.new;
          held = inbox.new;
          place = place_of talk.new;
          seen = P.seen port.new;
          own = P.own port.new;
          written = L.written link.new;
        })
        result }
{
    loop {
        let len = match next_frame(inbox.as_slice()) {
            FrameStep::More => return Ok(()),
            FrameStep::BadLength { len } => return Err(Stop::FrameTooLong { len }),
            FrameStep::Body { len } => len,
        };
        match answer_frame(rt, alloc, opening, port, link, gate, inbox, out, talk, len) {
            Err(_) => return Err(Stop::WriteFault),
            Ok(true) => return Err(Stop::Bye),
            Ok(false) => {}
        }
    }
}

/// Serves the requests that come over a link, each by a turn of the port or without one, until a Bye, the end of the
/// input, or what else ends it. At most `most` bytes are taken. The buffers are taken before the first read, so a reply
/// can always be written. It waits for nobody itself.
pub fn session<P: Port, L: Link, R: Threads + Sync, G: Gate>(
    rt: &R,
    alloc: Global,
    design: &Arc<Design>,
    port: &mut P,
    link: &mut L,
    gate: &G,
    most: u64,
) -> Ended
    requires { P.opening port.old ≡ arc_value design.now }
    ensures rest { P.rest port.new ≡ P.rest port.old }
    ensures opening { P.opening port.new ≡ P.opening port.old }
    ensures caller { P.caller port.new ≡ P.caller port.old }
    ensures session { Session (P.opening port.old) (P.caller port.old) most
        (record {
          left = L.left link.old;
          written = L.written link.old;
          seen = P.seen port.old;
          own = P.own port.old;
        })
        (record {
          left = L.left link.new;
          written = L.written link.new;
          seen = P.seen port.new;
          own = P.own port.new;
        })
        result }
    ensures history { IsHistory (P.opening port.old) (P.seen port.new) }
    ensures read_later { L.read_faults link.old ≤ L.read_faults link.new }
    ensures read_cause { result ≡ Ended.ReadFault
        → Rose (L.read_faults link.old) (L.read_faults link.new) }
    ensures write_later { L.write_faults link.old ≤ L.write_faults link.new }
    ensures write_cause { result ≡ Ended.WriteFault
        → Rose (L.write_faults link.old) (L.write_faults link.new) }
    ensures early { result ≡ Ended.Memory → (port.new ≡ port.old) × (link.new ≡ link.old) }
{
    let Ok(mut inbox) = Inbox::new(alloc) else {
        return Ended::Memory;
    };
    let Ok(mut out) = Vec::with_capacity(alloc, LONGEST_FRAME) else {
        return Ended::Memory;
    };
    let mut talk = Talk::new(port.point());
    let mut room = most;
    loop {
        match answer_all(
            rt, alloc, design, port, link, gate, &mut inbox, &mut out, &mut talk,
        ) {
            Ok(()) => {}
            Err(Stop::Bye) => return Ended::Bye,
            Err(Stop::FrameTooLong { len }) => return Ended::FrameTooLong { len },
            Err(Stop::WriteFault) => return Ended::WriteFault,
        }
        if room == 0 {
            return Ended::SessionTooLong;
        }
        match inbox.fill(link, room) {
            Err(_) => return Ended::ReadFault,
            Ok(0) => {
                let rest = inbox.len();
                if rest == 0 {
                    return Ended::InputEnd;
                }
                return Ended::TornFrame;
            }
            Ok(count) => room -= count as u64,
        }
    }
}
