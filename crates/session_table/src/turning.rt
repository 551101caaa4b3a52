//! Replies to requests.
ghost use Rattle.std.specs.Prelude.{◌≡◌, ◌≤◌, ℕ, List, length, Ok, Option, Some, None, true};
ghost use Rattle.std.proofs.Common.{inr};
ghost use Rattle.std.specs.Arc.{arc_value};
ghost use Rattle.sampler.specs.Shape.{Fits};
ghost use Rattle.upload_stage.specs.Uploads.{Upload, begin_fault, piece_fault};
ghost use Rattle.cov_proto.specs.Request.TheVariants as request;
ghost use Rattle.cov_history.specs.Answers.{may_want};
ghost use Rattle.cov_history.specs.Turns.{wish_of, IsFrom, Admit, Revise};
ghost use Rattle.store_core.specs.Asks.{asked, Meets};
ghost use Rattle.answer_frames.specs.Frames.{IsWritable};
ghost use Rattle.session_table.specs.Contents.{tables_apart};
ghost use Rattle.session_table.specs.Table.{begin_row, piece_row, unless, stage_refusal};
ghost use Rattle.session_table.specs.Says.{Rowed, Local, Replies, place_of};

use crate::Port;
use crate::finding::{record_of, text_of};
use crate::talk::Talk;
use answer_frames::kept;
use cov_base::Gate;
use cov_compile::Compiled;
use cov_proto::{Body, Reply, Request};
use design_data::Design;
use record_codec::Record;
use std::alloc::Global;
use std::sync::Arc;
use std::thread::Threads;
use store_core::{Ask, rebin};
use ucis_model::Answer;
use upload_stage::StageFault;

// How a reply says why the stage refuses.
#[tactic(auto, unfolding(answer_frames::specs::Frames::IsWritable, cov_proto::specs::Spelled::body_fields, cov_proto::specs::Spelled::answer_fields))]
fn refused(fault: StageFault) -> Body
    ensures body { result ≡ stage_refusal fault }
    ensures writable { IsWritable result }
{
    match fault {
        StageFault::NoUpload => Body::NoUpload,
        StageFault::StageBusy => Body::StageBusy,
        StageFault::TooLong { n } => Body::TooLong { n },
        StageFault::Outside { offset, len } => Body::Outside { offset, len },
        StageFault::Differs { at } => Body::Differs { at },
        StageFault::Missing { at } => Body::Missing { at },
        StageFault::DigestDiffers { got } => Body::DigestDiffers { got },
        StageFault::Memory => Body::Store(Answer::Memory),
    }
}

// Takes a turn, for a wish. Memory may be said in its place where the ask may want it.
fn turn<P: Port, R: Threads + Sync>(rt: &R, port: &mut P, talk: &mut Talk, ask: Ask) -> Reply
    requires meets { Meets (P.opening port.old) (P.seen port.old) ask }
    requires from { IsFrom talk.old.point (asked ask) }
    requires within { talk.old.point ≤ length (P.seen port.old) }
    ensures rest { P.rest port.new ≡ P.rest port.old }
    ensures opening { P.opening port.new ≡ P.opening port.old }
    ensures caller { P.caller port.new ≡ P.caller port.old }
    ensures rowed { (from : Upload) (may : Option Upload)
        → (may_want (asked ask) ≡ true → may ≡ Some talk.old.stage)
        → Rowed (P.opening port.old) (P.caller port.old) (P.seen port.old) (P.own port.old)
        (P.seen port.new) (P.own port.new) (record { point = talk.old.point; stage = from })
        (inr (wish_of (asked ask))) talk.old.stage may result (place_of talk.new) }
{
    let answered = port.turn(rt, ask);
    let answer = kept(answered.answer);
    talk.answers(answered.point, answer)
}

// A basis, the record prepared under its design, and a turn.
fn admit<P: Port, R: Threads + Sync, G: Gate>(
    rt: &R,
    alloc: Global,
    port: &mut P,
    talk: &mut Talk,
    rec: Record,
    gate: &G,
) -> Reply
    requires fits { Fits (P.opening port.old) rec }
    requires within { talk.old.point ≤ length (P.seen port.old) }
    ensures rest { P.rest port.new ≡ P.rest port.old }
    ensures opening { P.opening port.new ≡ P.opening port.old }
    ensures caller { P.caller port.new ≡ P.caller port.old }
    ensures rowed { (from : Upload)
        → Rowed (P.opening port.old) (P.caller port.old) (P.seen port.old) (P.own port.old)
        (P.seen port.new) (P.own port.new) (record { point = talk.old.point; stage = from })
        (inr (Admit rec)) talk.old.stage (Some talk.old.stage) result (place_of talk.new) }
{
    let Ok(basis) = port.basis() else {
        return talk.lacks();
    };
    let Ok(prepared) = basis.design.prepare(alloc, rec, gate) else {
        return talk.lacks();
    };
    let since = basis.point;
    turn(rt, port, talk, Ask::Admit { since, prepared })
}

// A basis, its records counted under the text's design, and a turn.
fn readied<P: Port, R: Threads + Sync, G: Gate>(
    rt: &R,
    alloc: Global,
    port: &mut P,
    talk: &mut Talk,
    compiled: Compiled,
    gate: &G,
) -> Reply
    requires tables { tables_apart (P.opening port.old) compiled.design ≡ None }
    requires within { talk.old.point ≤ length (P.seen port.old) }
    ensures rest { P.rest port.new ≡ P.rest port.old }
    ensures opening { P.opening port.new ≡ P.opening port.old }
    ensures caller { P.caller port.new ≡ P.caller port.old }
    ensures rowed { (from : Upload)
        → Rowed (P.opening port.old) (P.caller port.old) (P.seen port.old) (P.own port.old)
        (P.seen port.new) (P.own port.new) (record { point = talk.old.point; stage = from })
        (inr (Revise (record { text = compiled.text; design = compiled.design })))
        talk.old.stage (Some talk.old.stage) result (place_of talk.new) }
{
    let Ok(basis) = port.basis() else {
        return talk.lacks();
    };
    let Ok(rebinned) = rebin(rt, alloc, compiled, &basis, gate) else {
        return talk.lacks();
    };
    turn(rt, port, talk, Ask::Revise(rebinned))
}

// The upload as a record.
fn commit<P: Port, R: Threads + Sync, G: Gate>(
    rt: &R,
    alloc: Global,
    opening: &Design,
    port: &mut P,
    talk: &mut Talk,
    digest: &[u8; 32],
    gate: &G,
) -> Reply
    requires opening { P.opening port.old ≡ opening.now }
    requires within { talk.old.point ≤ length (P.seen port.old) }
    ensures rest { P.rest port.new ≡ P.rest port.old }
    ensures opening { P.opening port.new ≡ P.opening port.old }
    ensures caller { P.caller port.new ≡ P.caller port.old }
    ensures replies { Replies (P.opening port.old) (P.caller port.old) (P.seen port.old) (P.own port.old)
        (P.seen port.new) (P.own port.new) (place_of talk.old) (Ok (request.Commit digest.now))
        result (place_of talk.new) }
{
    let bytes = match talk.stage.finish(digest) {
        Err(fault) => return talk.says(refused(fault)),
        Ok(bytes) => bytes,
    };
    match record_of(alloc, opening, bytes.as_slice()) {
        Ok(rec) => admit(rt, alloc, port, talk, rec, gate),
        Err(body) => talk.says(body),
    }
}

// The upload as a design text.
fn revise<P: Port, R: Threads + Sync, G: Gate>(
    rt: &R,
    alloc: Global,
    opening: &Design,
    port: &mut P,
    talk: &mut Talk,
    digest: &[u8; 32],
    gate: &G,
) -> Reply
    requires opening { P.opening port.old ≡ opening.now }
    requires within { talk.old.point ≤ length (P.seen port.old) }
    ensures rest { P.rest port.new ≡ P.rest port.old }
    ensures opening { P.opening port.new ≡ P.opening port.old }
    ensures caller { P.caller port.new ≡ P.caller port.old }
    ensures replies { Replies (P.opening port.old) (P.caller port.old) (P.seen port.old) (P.own port.old)
        (P.seen port.new) (P.own port.new) (place_of talk.old) (Ok (request.Revise digest.now))
        result (place_of talk.new) }
{
    let text = match talk.stage.finish(digest) {
        Err(fault) => return talk.says(refused(fault)),
        Ok(text) => text,
    };
    match text_of(alloc, opening, text.as_slice()) {
        Ok(compiled) => readied(rt, alloc, port, talk, compiled, gate),
        Err(body) => talk.says(body),
    }
}

// Opens an upload.
fn begin(alloc: Global, talk: &mut Talk, len: u64) -> Reply
    ensures { Local (place_of talk.old) (begin_row (begin_fault talk.old.stage len) talk.old.stage len)
        (unless (begin_fault talk.old.stage len) talk.old.stage) result (place_of talk.new) }
{
    match talk.stage.begin(alloc, len) {
        Ok(()) => talk.done(),
        Err(fault) => talk.says(refused(fault)),
    }
}

// Adds a piece.
fn piece(talk: &mut Talk, offset: u64, bytes: &[u8]) -> Reply
    ensures { Local (place_of talk.old)
        (piece_row (piece_fault talk.old.stage offset bytes.now) talk.old.stage offset bytes.now)
        (Some talk.old.stage) result (place_of talk.new) }
{
    match talk.stage.piece(offset, bytes) {
        Ok(()) => talk.done(),
        Err(fault) => talk.says(refused(fault)),
    }
}

/// The reply to a request. A record is prepared, and a revising text compiled and its tests counted, before the turn.
pub(crate) fn answer_request<P: Port, R: Threads + Sync, G: Gate>(
    rt: &R,
    alloc: Global,
    opening: &Design,
    port: &mut P,
    talk: &mut Talk,
    request: Request,
    gate: &G,
) -> Reply
    requires opening { P.opening port.old ≡ opening.now }
    requires within { talk.old.point ≤ length (P.seen port.old) }
    ensures rest { P.rest port.new ≡ P.rest port.old }
    ensures opening { P.opening port.new ≡ P.opening port.old }
    ensures caller { P.caller port.new ≡ P.caller port.old }
    ensures replies { Replies (P.opening port.old) (P.caller port.old) (P.seen port.old) (P.own port.old)
        (P.seen port.new) (P.own port.new) (place_of talk.old) (Ok request) result (place_of talk.new) }
{
    match request {
        Request::Begin { len } => begin(alloc, talk, len),
        Request::Piece { offset, bytes } => piece(talk, offset, bytes.as_slice()),
        Request::Commit { digest } => commit(rt, alloc, opening, port, talk, &digest, gate),
        Request::Revise { digest } => revise(rt, alloc, opening, port, talk, &digest, gate),
        Request::Bye => talk.farewell(),
        Request::Hello { point } => turn(rt, port, talk, Ask::Hello { point }),
        Request::Counts { first, path } => turn(rt, port, talk, Ask::Counts { first, path }),
        Request::Coverage { path } => turn(rt, port, talk, Ask::Coverage { path }),
        Request::Illegal { first } => turn(rt, port, talk, Ask::Illegal { first }),
        Request::Tests { first } => turn(rt, port, talk, Ask::Tests { first }),
        Request::TestCounts { first, id, path } => {
            turn(rt, port, talk, Ask::TestCounts { first, id, path })
        }
        Request::Rank => turn(rt, port, talk, Ask::Rank),
        Request::Exclude { path } => turn(rt, port, talk, Ask::Exclude { path }),
        Request::Include { path } => turn(rt, port, talk, Ask::Include { path }),
        Request::NameOf { bin } => turn(rt, port, talk, Ask::NameOf { bin }),
        Request::Fetch { place, offset } => turn(rt, port, talk, Ask::Fetch { place, offset }),
    }
}
