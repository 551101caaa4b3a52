//! Requests from their bodies.
ghost use Rattle.std.specs.Prelude.{◌≡◌, ◌≤◌, length, IfOk, IfErr, Ok};
ghost use Rattle.request_forms.specs.declared.requests.Request.TheVariants.{TestCounts};
ghost use Rattle.request_forms.specs.Frames.{longest_body};
ghost use Rattle.request_forms.specs.Given.{Gives, GivesOrLacks, Asks};
ghost use Rattle.request_forms.specs.Laws.{SpellsRequest, HasNoRequest};
ghost use Rattle.request_forms.specs.Reading.{path};
ghost use Rattle.request_forms.specs.Requests.{piece_at, counts_at, test_counts_at, fetch_at};
ghost use Rattle.request_forms.specs.Requests.{plain_at, request_at, request_left, request_read, HasRead};

use crate::fault::{BadAt, Fault, place};
use crate::fields::{end, only_digest, only_u32, only_u64, path, text_at, u32_at, u64_at};
use crate::{Request, RequestFault};
use cov_tree::Name;
use std::alloc::Global;

fn fetch(bytes: &[u8]) -> Result<Request, BadAt>
    ensures { Gives (λ x. x) result (fetch_at bytes.now) }
{
    let (place, rest) = u32_at(bytes)?;
    let offset = only_u64(rest)?;
    Ok(Request::Fetch { place, offset })
}

// What this tag asks where it has no text. It takes no memory.
fn plain_request(tag: u8, bytes: &[u8]) -> Result<Request, BadAt>
    ensures { Gives (λ x. x) result (plain_at tag bytes.now) }
{
    match tag {
        0x01 => Ok(Request::Hello {
            point: only_u64(bytes)?,
        }),
        0x02 => Ok(Request::Begin {
            len: only_u64(bytes)?,
        }),
        0x04 => Ok(Request::Commit {
            digest: only_digest(bytes)?,
        }),
        0x07 => Ok(Request::Illegal {
            first: only_u32(bytes)?,
        }),
        0x08 => Ok(Request::Tests {
            first: only_u32(bytes)?,
        }),
        0x0A => {
            end(bytes)?;
            Ok(Request::Rank)
        }
        0x0D => Ok(Request::NameOf {
            bin: only_u32(bytes)?,
        }),
        0x0E => {
            end(bytes)?;
            Ok(Request::Bye)
        }
        0x0F => Ok(Request::Revise {
            digest: only_digest(bytes)?,
        }),
        0x10 => fetch(bytes),
        _ => Err(BadAt {
            left: bytes.len() + 1,
        }),
    }
}

fn piece(alloc: Global, bytes: &[u8]) -> Result<Request, Fault>
    ensures { Asks result (piece_at bytes.now) }
{
    let (offset, rest) = u64_at(bytes)?;
    let bytes = Name::of(alloc, rest)?;
    Ok(Request::Piece { offset, bytes })
}

fn counts(alloc: Global, bytes: &[u8]) -> Result<Request, Fault>
    ensures { Asks result (counts_at bytes.now) }
{
    let (first, rest) = u32_at(bytes)?;
    let path = path(rest)?;
    let path = Name::of(alloc, path)?;
    Ok(Request::Counts { first, path })
}

// Copies of an id and a path.
fn test_counts_of(
    alloc: Global,
    first: u32,
    id: &[u8],
    path: &[u8],
) -> Result<Request, cov_tree::Memory>
    ensures { IfOk result (λ r. r ≡ TestCounts first id.now path.now) }
{
    let id = Name::of(alloc, id)?;
    let path = Name::of(alloc, path)?;
    Ok(Request::TestCounts { first, id, path })
}

fn test_counts(alloc: Global, bytes: &[u8]) -> Result<Request, Fault>
    ensures { Asks result (test_counts_at bytes.now) }
{
    let (first, rest) = u32_at(bytes)?;
    let (id, rest) = text_at(1, 33, rest)?;
    let path = path(rest)?;
    let request = test_counts_of(alloc, first, id, path)?;
    Ok(request)
}

// A copy of all of the bytes as a path.
fn path_of(alloc: Global, bytes: &[u8]) -> Result<Name, Fault>
    ensures given { GivesOrLacks (λ x. x) result (path bytes.now) }
    ensures wants { IfErr result (λ fault. fault ≡ Fault.Memory → path bytes.now ≡ Ok bytes.now) }
{
    let path = path(bytes)?;
    Ok(Name::of(alloc, path)?)
}

// What this tag asks.
fn request_at(alloc: Global, tag: u8, bytes: &[u8]) -> Result<Request, Fault>
    ensures { Asks result (request_at tag bytes.now) }
{
    match tag {
        0x03 => piece(alloc, bytes),
        0x05 => counts(alloc, bytes),
        0x06 => {
            let path = path_of(alloc, bytes)?;
            Ok(Request::Coverage { path })
        }
        0x09 => test_counts(alloc, bytes),
        0x0B => {
            let path = path_of(alloc, bytes)?;
            Ok(Request::Exclude { path })
        }
        0x0C => {
            let path = path_of(alloc, bytes)?;
            Ok(Request::Include { path })
        }
        _ => Ok(plain_request(tag, bytes)?),
    }
}

#[tactic(auto, unfolding(crate::specs::Requests::request_left))]
fn request_left(alloc: Global, body: &[u8]) -> Result<Request, Fault>
    ensures { Asks result (request_left body.now) }
{
    let Some((tag, rest)) = body.split_first() else {
        return Err(Fault::At { left: 0 });
    };
    request_at(alloc, *tag, rest)
}

/// The request that the body spells, all of it; or the place of the first field that is cut or out of its range, or of the first byte
/// too many. An unknown tag is at 0. Memory is taken for a path, an id or the bytes of a Piece, and each is copied once.
pub fn read_request(alloc: Global, body: &[u8]) -> Result<Request, RequestFault>
    requires { length body.now ≤ longest_body }
    ensures told { HasRead result (request_read body.now) }
    ensures spelled { IfOk result (λ r. SpellsRequest r body.now) }
    ensures none { IfErr result (λ fault. HasNoRequest body.now fault) }
{
    match request_left(alloc, body) {
        Ok(request) => Ok(request),
        Err(Fault::At { left }) => Err(RequestFault::BadMessage {
            at: place(body.len(), left),
        }),
        Err(Fault::Memory) => Err(RequestFault::Memory),
    }
}
