//! Replies from their bodies.
ghost use Rattle.std.specs.Prelude.{◌≡◌, ◌≤◌, ◌-◌, ◌^◌, length, IfOk, IfErr, false};
ghost use Rattle.std.specs.Int.{w64};
ghost use Rattle.cov_proto.specs.Frames.{longest_body};
ghost use Rattle.request_forms.specs.Given.{Gives, GivesOrLacks};
ghost use Rattle.cov_proto.specs.Given.{MayLack};
ghost use Rattle.cov_proto.specs.Laws.{SpellsReply, HasNoReply};
ghost use Rattle.request_forms.specs.Reading.{number_within};
ghost use Rattle.cov_proto.specs.Replies.{counts_at, coverage_at, tests_at, ranks_at, path_is_at, chunk_at};
ghost use Rattle.cov_proto.specs.Replies.{outside_at, bad_record_at, full_at, bad_design_at, greatest_number};
ghost use Rattle.cov_proto.specs.Replies.{bare_at, number_reply_at, body_at, is_reply_tag, tagged_at};
ghost use Rattle.cov_proto.specs.Replies.{takes_memory, begins_with_text, MayWant};
ghost use Rattle.cov_proto.specs.Replies.{reply_left, reply_read, HasReadReply};

use crate::rows::{CountRows, RankRows, TestRows, all_rows, cover_row, limit_at};
use crate::{Body, Reply, RequestFault};
use cov_tree::Name;
use request_forms::fault::{BadAt, Fault, place};
use request_forms::fields::{
    end, only_digest, only_u32, only_u64, path, u8_within, u32_at, u64_at,
};
use std::alloc::Global;
use ucis_model::Answer;

// What this tag says where it has no fields.
fn bare(tag: u8, bytes: &[u8]) -> Result<Body, BadAt>
    ensures { Gives (λ x. x) result (bare_at tag bytes.now) }
{
    let body = match tag {
        0x80 => Body::Done,
        0x82 => Body::Store(Answer::New),
        0x89 => Body::Store(Answer::Changed),
        0x8A => Body::Farewell,
        0xC1 => Body::NoUpload,
        0xC2 => Body::StageBusy,
        0xCC => Body::Store(Answer::NoSuchPath),
        0xCD => Body::Store(Answer::AlreadyExcluded),
        0xCE => Body::Store(Answer::NotExcluded),
        0xCF => Body::Store(Answer::NoSuchTest),
        0xD1 => Body::Store(Answer::Memory),
        0xD5 => Body::Store(Answer::Stopped),
        0xD6 => Body::ReadOnly,
        _ => {
            return Err(BadAt {
                left: bytes.len() + 1,
            });
        }
    };
    match end(bytes) {
        Ok(()) => Ok(body),
        Err(bad) => Err(bad),
    }
}

// What this tag says where it has at most one number or digest.
fn number_reply(tag: u8, bytes: &[u8]) -> Result<Body, BadAt>
    ensures { Gives (λ x. x) result (number_reply_at tag bytes.now) }
{
    match tag {
        0x81 => Ok(Body::Store(Answer::Welcome {
            bins: only_u32(bytes)?,
        })),
        0x83 => Ok(Body::Store(Answer::Here {
            first: only_u64(bytes)?,
        })),
        0xC0 => Ok(Body::BadMessage {
            at: only_u32(bytes)?,
        }),
        0xC3 => Ok(Body::TooLong {
            n: only_u64(bytes)?,
        }),
        0xC5 => Ok(Body::Differs {
            at: only_u64(bytes)?,
        }),
        0xC6 => Ok(Body::Missing {
            at: only_u64(bytes)?,
        }),
        0xC7 => Ok(Body::DigestDiffers {
            got: only_digest(bytes)?,
        }),
        0xC9 => Ok(Body::WrongShape {
            at: only_u32(bytes)?,
        }),
        0xCA => Ok(Body::Store(Answer::IdTaken {
            digest: only_digest(bytes)?,
        })),
        0xD0 => Ok(Body::Store(Answer::Ahead {
            have: only_u64(bytes)?,
        })),
        0xD3 => Ok(Body::ShapeDiffers {
            at: only_u32(bytes)?,
        }),
        0xD4 => Ok(Body::Store(Answer::Moved {
            since: only_u64(bytes)?,
        })),
        _ => bare(tag, bytes),
    }
}

fn outside(bytes: &[u8]) -> Result<Body, BadAt>
    ensures { Gives (λ x. x) result (outside_at bytes.now) }
{
    let (offset, rest) = u64_at(bytes)?;
    let len = only_u64(rest)?;
    Ok(Body::Outside { offset, len })
}

// The number 0.
#[tactic(auto, unfolding(request_forms::specs::Reading::number_within))]
fn zero_at(bytes: &[u8]) -> Result<(u64, &[u8]), BadAt>
    ensures { Gives (λ x. (x.0, x.1.now)) result (number_within w64 0 0 bytes.now) }
{
    let (number, rest) = u64_at(bytes)?;
    if number != 0 {
        return Err(BadAt { left: bytes.len() });
    }
    Ok((number, rest))
}

// Any number of 64 bits.
#[tactic(auto, unfolding(request_forms::specs::Reading::number_within))]
fn any_u64_at(bytes: &[u8]) -> Result<(u64, &[u8]), BadAt>
    ensures { Gives (λ x. (x.0, x.1.now)) result (number_within w64 0 (2 ^ 64 - 1) bytes.now) }
{
    let (number, rest) = u64_at(bytes)?;
    Ok((number, rest))
}

// The number of a fault of a record: 0 for BadMagic, whose code is 2.
fn fault_number(code: u8, bytes: &[u8]) -> Result<(u64, &[u8]), BadAt>
    ensures { Gives (λ x. (x.0, x.1.now)) result (number_within w64 0 (greatest_number code) bytes.now) }
{
    if code == 2 {
        return zero_at(bytes);
    }
    any_u64_at(bytes)
}

#[tactic(auto, unfolding(crate::specs::Replies::record_fault_at))]
fn bad_record(bytes: &[u8]) -> Result<Body, BadAt>
    ensures { Gives (λ x. x) result (bad_record_at bytes.now) }
{
    let (code, rest) = u8_within(1, 6, bytes)?;
    let (number, rest) = fault_number(code, rest)?;
    end(rest)?;
    Ok(Body::BadRecord { code, number })
}

fn full(bytes: &[u8]) -> Result<Body, BadAt>
    ensures { Gives (λ x. x) result (full_at bytes.now) }
{
    let (which, rest) = limit_at(bytes)?;
    let (have, rest) = u64_at(rest)?;
    let want = only_u64(rest)?;
    Ok(Body::Store(Answer::Full { which, have, want }))
}

fn coverage(bytes: &[u8]) -> Result<Body, BadAt>
    ensures { Gives (λ x. x) result (coverage_at bytes.now) }
{
    let (row, rest) = cover_row(bytes)?;
    end(rest)?;
    Ok(Body::Store(Answer::CoverageIs(row)))
}

fn counts(alloc: Global, bytes: &[u8]) -> Result<Body, Fault>
    ensures { GivesOrLacks (λ x. x) result (counts_at bytes.now) }
{
    let (total, rest) = u32_at(bytes)?;
    let rows = all_rows(alloc, &CountRows, rest)?;
    Ok(Body::Store(Answer::Rows { total, rows }))
}

fn tests(alloc: Global, bytes: &[u8]) -> Result<Body, Fault>
    ensures { GivesOrLacks (λ x. x) result (tests_at bytes.now) }
{
    let (total, rest) = u32_at(bytes)?;
    let rows = all_rows(alloc, &TestRows, rest)?;
    Ok(Body::Store(Answer::TestRows { total, rows }))
}

fn ranks(alloc: Global, bytes: &[u8]) -> Result<Body, Fault>
    ensures { GivesOrLacks (λ x. x) result (ranks_at bytes.now) }
{
    let rows = all_rows(alloc, &RankRows, bytes)?;
    Ok(Body::Store(Answer::RankRows(rows)))
}

fn path_is(alloc: Global, bytes: &[u8]) -> Result<Body, Fault>
    ensures { GivesOrLacks (λ x. x) result (path_is_at bytes.now) }
{
    let path = path(bytes)?;
    let path = Name::of(alloc, path)?;
    Ok(Body::Store(Answer::PathIs(path)))
}

fn chunk(alloc: Global, bytes: &[u8]) -> Result<Body, Fault>
    ensures { GivesOrLacks (λ x. x) result (chunk_at bytes.now) }
{
    let (len, rest) = u64_at(bytes)?;
    let bytes = Name::of(alloc, rest)?;
    Ok(Body::Store(Answer::Chunk { len, bytes }))
}

fn bad_design(alloc: Global, bytes: &[u8]) -> Result<Body, Fault>
    ensures { GivesOrLacks (λ x. x) result (bad_design_at bytes.now) }
{
    let (at, rest) = u32_at(bytes)?;
    let kind = Name::of(alloc, rest)?;
    Ok(Body::BadDesign { at, kind })
}

// What this tag says where it takes no memory.
fn lean(tag: u8, bytes: &[u8]) -> Result<Body, Fault>
    ensures given { GivesOrLacks (λ x. x) result (number_reply_at tag bytes.now) }
    ensures never { IfErr result (λ fault. MayLack false fault) }
{
    match number_reply(tag, bytes) {
        Ok(body) => Ok(body),
        Err(bad) => Err(bad.into()),
    }
}

// What this tag says, one short reply with several fields or one that takes memory.
fn body_of(alloc: Global, tag: u8, bytes: &[u8]) -> Result<Body, Fault>
    ensures given { GivesOrLacks (λ x. x) result (body_at tag bytes.now) }
    ensures lacks { IfErr result (λ fault. MayLack (takes_memory tag) fault) }
{
    match tag {
        0x84 => counts(alloc, bytes),
        0x85 => Ok(coverage(bytes)?),
        0x86 => tests(alloc, bytes),
        0x87 => ranks(alloc, bytes),
        0x88 => path_is(alloc, bytes),
        0x8B => chunk(alloc, bytes),
        0xC4 => Ok(outside(bytes)?),
        0xC8 => Ok(bad_record(bytes)?),
        0xCB => Ok(full(bytes)?),
        0xD2 => bad_design(alloc, bytes),
        _ => lean(tag, bytes),
    }
}

fn is_reply_tag(tag: u8) -> bool
    ensures { result ≡ is_reply_tag tag }
{
    (0x80 <= tag && tag <= 0x8B) || (0xC0 <= tag && tag <= 0xD6)
}

#[tactic(auto, unfolding(crate::specs::Replies::tagged_at))]
fn tagged(alloc: Global, tag: u8, bytes: &[u8]) -> Result<Reply, Fault>
    ensures given { GivesOrLacks (λ x. x) result (tagged_at tag bytes.now) }
    ensures lacks { IfErr result (λ fault. MayLack (takes_memory tag) fault) }
{
    let (point, rest) = u64_at(bytes)?;
    let body = body_of(alloc, tag, rest)?;
    Ok(Reply { point, body })
}

#[tactic(auto, unfolding(crate::specs::Replies::reply_left))]
fn reply_left(alloc: Global, body: &[u8]) -> Result<Reply, Fault>
    ensures given { GivesOrLacks (λ x. x) result (reply_left body.now) }
    ensures lacks { IfErr result (λ fault. MayLack (begins_with_text body.now) fault) }
{
    let Some((tag, rest)) = body.split_first() else {
        return Err(Fault::At { left: 0 });
    };
    if !is_reply_tag(*tag) {
        return Err(Fault::At { left: body.len() });
    }
    tagged(alloc, *tag, rest)
}

/// The reply that the body spells, all of it; or the place of the first field that is cut or out of its range, or of the first byte
/// too many. An unknown tag is at 0.
pub fn read_reply(alloc: Global, body: &[u8]) -> Result<Reply, RequestFault>
    requires { length body.now ≤ longest_body }
    ensures told { HasReadReply result (reply_read body.now) }
    ensures spelled { IfOk result (λ r. SpellsReply r body.now) }
    ensures none { IfErr result (λ fault. HasNoReply body.now fault) }
    ensures wants { IfErr result (λ fault. MayWant body.now fault) }
{
    match reply_left(alloc, body) {
        Ok(reply) => Ok(reply),
        Err(Fault::At { left }) => Err(RequestFault::BadMessage {
            at: place(body.len(), left),
        }),
        Err(Fault::Memory) => Err(RequestFault::Memory),
    }
}
