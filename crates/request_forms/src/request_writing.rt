//! Requests as frames.
ghost use Rattle.std.specs.Prelude.{◌≡◌, ◌+◌, ◌≤◌, ◌<◌, ◌++◌, ◌∷◌, length, vec_len, vec_capacity, OnOk, OnErr};
ghost use Rattle.std.specs.Int.{w32, w64, to_be_bytes};
ghost use Rattle.request_forms.specs.Frames.{frame, longest_body};
ghost use Rattle.request_forms.specs.Limits.{IsRequest};
ghost use Rattle.request_forms.specs.Spelled.{text, request_spelled};

use crate::Request;
use crate::writing::{append, append_tagged, append_u32_and, append_u64_and};
use cov_tree::{Memory, Name};

// How many bytes the request has.
#[tactic(auto, unfolding(crate::specs::Spelled::request_spelled))]
fn request_size(request: &Request) -> usize
    requires { length (request_spelled request.now) ≤ longest_body }
    ensures { result ≡ length (request_spelled request.now) }
{
    match request {
        Request::Hello { .. } => 9,
        Request::Begin { .. } => 9,
        Request::Piece { bytes, .. } => 9 + bytes.as_slice().len(),
        Request::Commit { digest } => 1 + digest_size(digest),
        Request::Counts { path, .. } => 5 + path.as_slice().len(),
        Request::Coverage { path } => 1 + path.as_slice().len(),
        Request::Illegal { .. } => 5,
        Request::Tests { .. } => 5,
        Request::TestCounts { id, path, .. } => test_counts_size(id, path),
        Request::Rank => 1,
        Request::Exclude { path } => 1 + path.as_slice().len(),
        Request::Include { path } => 1 + path.as_slice().len(),
        Request::NameOf { .. } => 5,
        Request::Bye => 1,
        Request::Revise { digest } => 1 + digest_size(digest),
        Request::Fetch { .. } => 13,
    }
}

/// How many bytes a digest has.
pub fn digest_size(digest: &[u8; 32]) -> usize
    ensures size { result ≡ length digest.now }
    ensures bound { result ≡ 32 }
{
    let digest = *digest;
    digest.len()
}

fn test_counts_size(id: &Name, path: &Name) -> usize
    requires { length (text id.now ++ path.now) ≤ longest_body }
    ensures { result ≡ 5 + length (text id.now ++ path.now) }
{
    6 + id.as_slice().len() + path.as_slice().len()
}

fn append_test_counts(out: &mut Vec<u8>, first: u32, id: &Name, path: &Name)
    requires short { length id.now < 256 }
    requires room { vec_len out.old
        + length (9 ∷ (to_be_bytes w32 first ++ (text id.now ++ path.now))) ≤ vec_capacity out.old }
    ensures items { out.new.items
        ≡ out.old.items ++ (9 ∷ (to_be_bytes w32 first ++ (text id.now ++ path.now))) }
    ensures room { vec_capacity out.old ≤ vec_capacity out.new }
{
    append_tagged(out, 0x09, &first.to_be_bytes());
    append_tagged(out, id.as_slice().len() as u8, id.as_slice());
    append(out, path.as_slice());
}

fn append_numbered(out: &mut Vec<u8>, tag: u8, number: u32, bytes: &[u8])
    requires { vec_len out.old + (5 + length bytes.now) ≤ vec_capacity out.old }
    ensures items { out.new.items ≡ out.old.items ++ (tag ∷ (to_be_bytes w32 number ++ bytes.now)) }
    ensures room { vec_capacity out.old ≤ vec_capacity out.new }
{
    append(out, &[tag]);
    append_u32_and(out, number, bytes);
}

fn append_piece(out: &mut Vec<u8>, offset: u64, bytes: &[u8])
    requires { vec_len out.old + (9 + length bytes.now) ≤ vec_capacity out.old }
    ensures items { out.new.items ≡ out.old.items ++ (3 ∷ (to_be_bytes w64 offset ++ bytes.now)) }
    ensures room { vec_capacity out.old ≤ vec_capacity out.new }
{
    append(out, &[0x03]);
    append_u64_and(out, offset, bytes);
}

// Appends the body of the request.
#[tactic(auto, unfolding(crate::specs::Spelled::request_spelled))]
fn append_request(out: &mut Vec<u8>, request: &Request)
    requires spelled { IsRequest request.now }
    requires room { vec_len out.old + length (request_spelled request.now) ≤ vec_capacity out.old }
    ensures items { out.new.items ≡ out.old.items ++ request_spelled request.now }
{
    match request {
        Request::Hello { point } => append_tagged(out, 0x01, &point.to_be_bytes()),
        Request::Begin { len } => append_tagged(out, 0x02, &len.to_be_bytes()),
        Request::Piece { offset, bytes } => append_piece(out, *offset, bytes.as_slice()),
        Request::Commit { digest } => append_tagged(out, 0x04, digest),
        Request::Counts { first, path } => append_numbered(out, 0x05, *first, path.as_slice()),
        Request::Coverage { path } => append_tagged(out, 0x06, path.as_slice()),
        Request::Illegal { first } => append_tagged(out, 0x07, &first.to_be_bytes()),
        Request::Tests { first } => append_tagged(out, 0x08, &first.to_be_bytes()),
        Request::TestCounts { first, id, path } => append_test_counts(out, *first, id, path),
        Request::Rank => append(out, &[0x0A]),
        Request::Exclude { path } => append_tagged(out, 0x0B, path.as_slice()),
        Request::Include { path } => append_tagged(out, 0x0C, path.as_slice()),
        Request::NameOf { bin } => append_tagged(out, 0x0D, &bin.to_be_bytes()),
        Request::Bye => append(out, &[0x0E]),
        Request::Revise { digest } => append_tagged(out, 0x0F, digest),
        Request::Fetch { place, offset } => append_numbered(
            out,
            0x10,
            *place,
            &offset.to_be_bytes(),
        ),
    }
}

/// Appends the frame of the request, whose paths and id are in their ranges and whose body has at most 1,048,640 bytes. Where memory
/// runs out, nothing is appended.
pub fn write_request(request: &Request, out: &mut Vec<u8>) -> Result<(), Memory>
    requires spelled { IsRequest request.now }
    requires short { length (request_spelled request.now) ≤ longest_body }
    ensures written { OnOk result
        (out.new.items ≡ out.old.items ++ frame (request_spelled request.now)) }
    ensures kept { OnErr result (out.new.items ≡ out.old.items) }
{
    let size = request_size(request);
    out.reserve(size + 4)?;
    append(out, &(size as u32).to_be_bytes());
    append_request(out, request);
    Ok(())
}
