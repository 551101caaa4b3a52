//! Replies to bodies.
ghost use Rattle.std.specs.Prelude.{◌≡◌, ◌≤◌, length, Ok};
ghost use Rattle.cov_proto.specs.Frames.{longest_body};
ghost use Rattle.session_table.specs.Table.{is_bye_request};
ghost use Rattle.session_table.specs.Says.{Says, place_of};

use crate::turning::answer_request;
use crate::{Port, Talk};
use cov_base::Gate;
use cov_proto::{Reply, Request, RequestFault, read_request};
use design_data::Design;
use std::alloc::Global;
use std::thread::Threads;

/// A reply, and whether it is the last.
#[derive(Drop)]
pub struct Said {
    pub reply: Reply,
    pub bye: bool,
}

fn is_bye(request: &Request) -> bool
    ensures { result ≡ is_bye_request (Ok request.now) }
{
    match request {
        Request::Bye => true,
        _ => false,
    }
}

/// The reply to one body, which has at most 1,048,640 bytes. Memory is never replied to what is no message, to a Hello or
/// a Bye, to a Begin that is refused, nor to a Commit or a Revise that the upload alone refuses.
pub fn answer<P: Port, R: Threads + Sync, G: Gate>(
    rt: &R,
    alloc: Global,
    opening: &Design,
    port: &mut P,
    talk: &mut Talk,
    body: &[u8],
    gate: &G,
) -> Said
    requires opening { P.opening port.old ≡ opening.now }
    requires within { talk.old.point ≤ length (P.seen port.old) }
    requires short { length body.now ≤ longest_body }
    ensures rest { P.rest port.new ≡ P.rest port.old }
    ensures opening { P.opening port.new ≡ P.opening port.old }
    ensures caller { P.caller port.new ≡ P.caller port.old }
    ensures says { Says (P.opening port.old) (P.caller port.old) (P.seen port.old) (P.own port.old)
        (P.seen port.new) (P.own port.new) (place_of talk.old) body.now result (place_of talk.new) }
{
    match read_request(alloc, body) {
        Ok(request) => {
            let bye = is_bye(&request);
            let reply = answer_request(rt, alloc, opening, port, talk, request, gate);
            Said { reply, bye }
        }
        Err(RequestFault::BadMessage { at }) => {
            let reply = talk.bad_message(at);
            Said { reply, bye: false }
        }
        Err(RequestFault::Memory) => {
            let reply = talk.lacks();
            Said { reply, bye: false }
        }
    }
}
