//! Replies as frames.
ghost use Rattle.std.specs.Prelude.{◌≡◌, ◌+◌, ◌*◌, ◌≤◌, ◌<◌, ◌++◌, ◌∷◌, [], length, vec_len, vec_capacity};
ghost use Rattle.std.specs.List.{AllByRecursion, flat_map};
ghost use Rattle.std.specs.Int.{w32, w64, to_be_bytes};
ghost use Rattle.cov_proto.specs.Frames.{frame, longest_body};
ghost use Rattle.cov_proto.specs.Limits.{IsAnswer, IsReplyBody, IsReply, IsTestRow};
ghost use Rattle.cov_proto.specs.Spelled.{flag, kind, limit, text, count_row, cover_row, test_row, rank_row};
ghost use Rattle.cov_proto.specs.Spelled.{answer_tag, answer_fields, body_tag, body_fields, reply_spelled};

use crate::{Body, Reply};
use cov_tree::Name;
use design_data::BinKind;
use request_forms::digest_size;
use request_forms::writing::{append, append_tagged, append_u32_and, append_u64_and};
use tally::Ranked;
use ucis_model::{Answer, CountRow, CoverRow, HistoryNode, Which};

fn kind_byte(of: BinKind) -> u8
    ensures { kind of ≡ result ∷ [] }
{
    match of {
        BinKind::CvgBin => 0,
        BinKind::IllegalBin => 1,
        BinKind::IgnoreBin => 2,
        BinKind::DefaultBin => 3,
    }
}

fn limit_byte(which: Which) -> u8
    ensures { limit which ≡ result ∷ [] }
{
    match which {
        Which::Tests => 0,
        Which::Bytes => 1,
        Which::Entries => 2,
        Which::History => 3,
    }
}

fn flag_byte(set: bool) -> u8
    ensures { flag set ≡ result ∷ [] }
{
    set as u8
}

#[inline]
#[tactic(auto, unfolding(crate::specs::Spelled::count_row))]
fn count_row_bytes(row: &CountRow) -> [u8; 14]
    ensures { result ≡ count_row row.now }
{
    let mut bytes = [0u8; 14];
    let (bin, rest) = bytes.split_at_mut(4);
    let (marks, count) = rest.split_at_mut(2);
    bin.copy_from_slice(&row.bin.to_be_bytes());
    marks.copy_from_slice(&[kind_byte(row.kind), flag_byte(row.excluded)]);
    count.copy_from_slice(&row.count.to_be_bytes());
    bytes
}

#[inline]
#[tactic(auto, unfolding(crate::specs::Spelled::count_row), using(crate::proofs::Sizes::size_of_count_row))]
fn append_count_row(out: &mut Vec<u8>, row: &CountRow)
    requires { vec_len out.old + 14 ≤ vec_capacity out.old }
    ensures long { vec_len out.new ≡ vec_len out.old + 14 }
    ensures items { out.new.items ≡ out.old.items ++ count_row row.now }
    ensures room { vec_capacity out.old ≤ vec_capacity out.new }
{
    append(out, &count_row_bytes(row));
}

#[tactic(auto, using(crate::proofs::Sizes::size_of_count_rows))]
fn append_count_rows(out: &mut Vec<u8>, rows: &[CountRow])
    requires { vec_len out.old + length (flat_map count_row rows.now) ≤ vec_capacity out.old }
    ensures items { out.new.items ≡ out.old.items ++ flat_map count_row rows.now }
    ensures room { vec_capacity out.old ≤ vec_capacity out.new }
{
    for row in rows {
        append_count_row(out, row);
    }
}

#[inline]
#[tactic(auto, unfolding(crate::specs::Spelled::rank_row))]
fn append_rank_row(out: &mut Vec<u8>, row: &Ranked)
    requires { vec_len out.old + 12 ≤ vec_capacity out.old }
    ensures long { vec_len out.new ≡ vec_len out.old + 12 }
    ensures items { out.new.items ≡ out.old.items ++ rank_row row.now }
    ensures room { vec_capacity out.old ≤ vec_capacity out.new }
{
    append_u32_and(out, row.test, &row.gain.to_be_bytes());
}

#[tactic(auto, using(crate::proofs::Sizes::size_of_rank_rows))]
fn append_rank_rows(out: &mut Vec<u8>, rows: &[Ranked])
    requires { vec_len out.old + length (flat_map rank_row rows.now) ≤ vec_capacity out.old }
    ensures items { out.new.items ≡ out.old.items ++ flat_map rank_row rows.now }
    ensures room { vec_capacity out.old ≤ vec_capacity out.new }
{
    for row in rows {
        append_rank_row(out, row);
    }
}

fn append_cover_row(out: &mut Vec<u8>, row: &CoverRow)
    requires { vec_len out.old + 14 ≤ vec_capacity out.old }
    ensures items { out.new.items ≡ out.old.items ++ cover_row row.now }
    ensures room { vec_capacity out.old ≤ vec_capacity out.new }
{
    let [a, b, c, d] = row.millionths.to_be_bytes();
    let met = flag_byte(row.met);
    let excluded = flag_byte(row.excluded);
    append(out, &[a, b, c, d, met, excluded]);
    append_u32_and(out, row.covered, &row.bins.to_be_bytes());
}

fn append_text(out: &mut Vec<u8>, name: &Name)
    requires short { length name.now < 256 }
    requires room { vec_len out.old + (1 + length name.now) ≤ vec_capacity out.old }
    ensures items { out.new.items ≡ out.old.items ++ text name.now }
    ensures room { vec_capacity out.old ≤ vec_capacity out.new }
{
    let bytes = name.as_slice();
    append_tagged(out, bytes.len() as u8, bytes);
}

#[tactic(auto, unfolding(crate::specs::Spelled::test_row))]
fn append_test_row(out: &mut Vec<u8>, row: &HistoryNode)
    requires fits { IsTestRow row.now }
    requires room { vec_len out.old + length (test_row row.now) ≤ vec_capacity out.old }
    ensures items { out.new.items ≡ out.old.items ++ test_row row.now }
    ensures room { vec_capacity out.old ≤ vec_capacity out.new }
{
    append_u64_and(out, row.point, &[row.status]);
    append_u64_and(out, row.seed, &row.time.to_be_bytes());
    append(out, &row.digest);
    append_text(out, &row.id);
    append_text(out, &row.user);
}

fn append_test_rows(out: &mut Vec<u8>, rows: &[HistoryNode])
    requires fit { AllByRecursion IsTestRow rows.now }
    requires room { vec_len out.old + length (flat_map test_row rows.now) ≤ vec_capacity out.old }
    ensures items { out.new.items ≡ out.old.items ++ flat_map test_row rows.now }
    ensures room { vec_capacity out.old ≤ vec_capacity out.new }
{
    for row in rows {
        append_test_row(out, row);
    }
}

#[tactic(auto, unfolding(crate::specs::Spelled::test_row))]
fn test_row_size(row: &HistoryNode) -> usize
    requires { IsTestRow row.now }
    ensures size { result ≡ length (test_row row.now) }
    ensures bound { result ≤ 1024 }
{
    digest_size(&row.digest) + 27 + row.id.as_slice().len() + row.user.as_slice().len()
}

#[tactic(auto, using(crate::proofs::Sizes::few_tests))]
fn test_rows_size(rows: &[HistoryNode]) -> usize
    requires fit { AllByRecursion IsTestRow rows.now }
    requires few { length (flat_map test_row rows.now) ≤ longest_body }
    ensures { result ≡ length (flat_map test_row rows.now) }
{
    let mut size = 0;
    for row in rows {
        size += test_row_size(row);
    }
    size
}

#[tactic(auto, unfolding(crate::specs::Spelled::answer_tag))]
fn answer_tag(answer: &Answer) -> u8
    ensures { result ≡ answer_tag answer.now }
{
    match answer {
        Answer::Welcome { .. } => 0x81,
        Answer::New => 0x82,
        Answer::Here { .. } => 0x83,
        Answer::Rows { .. } => 0x84,
        Answer::CoverageIs(_) => 0x85,
        Answer::TestRows { .. } => 0x86,
        Answer::RankRows(_) => 0x87,
        Answer::PathIs(_) => 0x88,
        Answer::Changed => 0x89,
        Answer::Chunk { .. } => 0x8B,
        Answer::IdTaken { .. } => 0xCA,
        Answer::Full { .. } => 0xCB,
        Answer::NoSuchPath => 0xCC,
        Answer::AlreadyExcluded => 0xCD,
        Answer::NotExcluded => 0xCE,
        Answer::NoSuchTest => 0xCF,
        Answer::Ahead { .. } => 0xD0,
        Answer::Memory => 0xD1,
        Answer::Moved { .. } => 0xD4,
        Answer::Stopped => 0xD5,
    }
}

#[tactic(auto, unfolding(crate::specs::Spelled::body_tag))]
fn body_tag(body: &Body) -> u8
    ensures { result ≡ body_tag body.now }
{
    match body {
        Body::Store(answer) => answer_tag(answer),
        Body::Done => 0x80,
        Body::Farewell => 0x8A,
        Body::BadMessage { .. } => 0xC0,
        Body::NoUpload => 0xC1,
        Body::StageBusy => 0xC2,
        Body::TooLong { .. } => 0xC3,
        Body::Outside { .. } => 0xC4,
        Body::Differs { .. } => 0xC5,
        Body::Missing { .. } => 0xC6,
        Body::DigestDiffers { .. } => 0xC7,
        Body::BadRecord { .. } => 0xC8,
        Body::WrongShape { .. } => 0xC9,
        Body::BadDesign { .. } => 0xD2,
        Body::ShapeDiffers { .. } => 0xD3,
        Body::ReadOnly => 0xD6,
    }
}

#[tactic(auto, using(crate::proofs::Sizes::size_of_count_rows))]
fn count_rows_size(rows: &[CountRow]) -> usize
    requires { length (flat_map count_row rows.now) ≤ longest_body }
    ensures { result ≡ length (flat_map count_row rows.now) }
{
    14 * rows.len()
}

#[tactic(auto, using(crate::proofs::Sizes::size_of_rank_rows))]
fn rank_rows_size(rows: &[Ranked]) -> usize
    requires { length (flat_map rank_row rows.now) ≤ longest_body }
    ensures { result ≡ length (flat_map rank_row rows.now) }
{
    12 * rows.len()
}

// How many bytes the fields of the answer have.
#[tactic(auto, unfolding(crate::specs::Spelled::answer_fields))]
fn answer_size(answer: &Answer) -> usize
    requires spelled { IsAnswer answer.now }
    requires short { length (answer_fields answer.now) ≤ longest_body }
    ensures { result ≡ length (answer_fields answer.now) }
{
    match answer {
        Answer::Welcome { .. } => 4,
        Answer::Here { .. } => 8,
        Answer::Rows { rows, .. } => 4 + count_rows_size(rows.as_slice()),
        Answer::CoverageIs(_) => 14,
        Answer::TestRows { rows, .. } => 4 + test_rows_size(rows.as_slice()),
        Answer::RankRows(rows) => rank_rows_size(rows.as_slice()),
        Answer::PathIs(path) => path.as_slice().len(),
        Answer::Ahead { .. } => 8,
        Answer::IdTaken { digest } => digest_size(digest),
        Answer::Full { .. } => 17,
        Answer::Moved { .. } => 8,
        Answer::Chunk { bytes, .. } => 8 + bytes.as_slice().len(),
        _ => 0,
    }
}

// How many bytes the fields of the reply have.
#[tactic(auto, unfolding(crate::specs::Spelled::body_fields))]
fn body_size(body: &Body) -> usize
    requires spelled { IsReplyBody body.now }
    requires short { length (body_fields body.now) ≤ longest_body }
    ensures { result ≡ length (body_fields body.now) }
{
    match body {
        Body::Store(answer) => answer_size(answer),
        Body::BadMessage { .. } => 4,
        Body::TooLong { .. } => 8,
        Body::Outside { .. } => 16,
        Body::Differs { .. } => 8,
        Body::Missing { .. } => 8,
        Body::DigestDiffers { got } => digest_size(got),
        Body::BadRecord { .. } => 9,
        Body::WrongShape { .. } => 4,
        Body::BadDesign { kind, .. } => 4 + kind.as_slice().len(),
        Body::ShapeDiffers { .. } => 4,
        _ => 0,
    }
}

fn append_counts(out: &mut Vec<u8>, total: u32, rows: &[CountRow])
    requires { vec_len out.old + (4 + length (flat_map count_row rows.now)) ≤ vec_capacity out.old }
    ensures items { out.new.items
        ≡ out.old.items ++ (to_be_bytes w32 total ++ flat_map count_row rows.now) }
    ensures room { vec_capacity out.old ≤ vec_capacity out.new }
{
    append(out, &total.to_be_bytes());
    append_count_rows(out, rows);
}

fn append_tests(out: &mut Vec<u8>, total: u32, rows: &[HistoryNode])
    requires fit { AllByRecursion IsTestRow rows.now }
    requires room { vec_len out.old + (4 + length (flat_map test_row rows.now))
        ≤ vec_capacity out.old }
    ensures items { out.new.items
        ≡ out.old.items ++ (to_be_bytes w32 total ++ flat_map test_row rows.now) }
    ensures room { vec_capacity out.old ≤ vec_capacity out.new }
{
    append(out, &total.to_be_bytes());
    append_test_rows(out, rows);
}

fn append_full(out: &mut Vec<u8>, which: Which, have: u64, want: u64)
    requires { vec_len out.old + 17 ≤ vec_capacity out.old }
    ensures items { out.new.items
        ≡ out.old.items ++ (limit which ++ (to_be_bytes w64 have ++ to_be_bytes w64 want)) }
    ensures room { vec_capacity out.old ≤ vec_capacity out.new }
{
    append(out, &[limit_byte(which)]);
    append_u64_and(out, have, &want.to_be_bytes());
}

// Appends the fields of the answer.
#[tactic(auto, unfolding(crate::specs::Spelled::answer_fields))]
fn append_answer(out: &mut Vec<u8>, answer: &Answer)
    requires spelled { IsAnswer answer.now }
    requires room { vec_len out.old + length (answer_fields answer.now) ≤ vec_capacity out.old }
    ensures items { out.new.items ≡ out.old.items ++ answer_fields answer.now }
    ensures room { vec_capacity out.old ≤ vec_capacity out.new }
{
    match answer {
        Answer::Welcome { bins } => append(out, &bins.to_be_bytes()),
        Answer::Here { first } => append(out, &first.to_be_bytes()),
        Answer::Rows { total, rows } => append_counts(out, *total, rows.as_slice()),
        Answer::CoverageIs(row) => append_cover_row(out, row),
        Answer::TestRows { total, rows } => append_tests(out, *total, rows.as_slice()),
        Answer::RankRows(rows) => append_rank_rows(out, rows.as_slice()),
        Answer::PathIs(path) => append(out, path.as_slice()),
        Answer::Ahead { have } => append(out, &have.to_be_bytes()),
        Answer::IdTaken { digest } => append(out, digest),
        Answer::Full { which, have, want } => append_full(out, *which, *have, *want),
        Answer::Moved { since } => append(out, &since.to_be_bytes()),
        Answer::Chunk { len, bytes } => append_u64_and(out, *len, bytes.as_slice()),
        _ => {}
    }
}

// Appends the fields of the reply.
#[tactic(auto, unfolding(crate::specs::Spelled::body_fields))]
fn append_body(out: &mut Vec<u8>, body: &Body)
    requires spelled { IsReplyBody body.now }
    requires room { vec_len out.old + length (body_fields body.now) ≤ vec_capacity out.old }
    ensures items { out.new.items ≡ out.old.items ++ body_fields body.now }
    ensures room { vec_capacity out.old ≤ vec_capacity out.new }
{
    match body {
        Body::Store(answer) => append_answer(out, answer),
        Body::BadMessage { at } => append(out, &at.to_be_bytes()),
        Body::TooLong { n } => append(out, &n.to_be_bytes()),
        Body::Outside { offset, len } => append_u64_and(out, *offset, &len.to_be_bytes()),
        Body::Differs { at } => append(out, &at.to_be_bytes()),
        Body::Missing { at } => append(out, &at.to_be_bytes()),
        Body::DigestDiffers { got } => append(out, got),
        Body::BadRecord { code, number } => append_tagged(out, *code, &number.to_be_bytes()),
        Body::WrongShape { at } => append(out, &at.to_be_bytes()),
        Body::BadDesign { at, kind } => append_u32_and(out, *at, kind.as_slice()),
        Body::ShapeDiffers { at } => append(out, &at.to_be_bytes()),
        _ => {}
    }
}

/// Appends the frame of the reply, which has a spelling of at most 1,048,640 bytes. It takes no memory: there is room for the frame.
#[tactic(auto, unfolding(crate::specs::Spelled::reply_spelled))]
pub fn write_reply(reply: &Reply, out: &mut Vec<u8>)
    requires spelled { IsReply reply.now }
    requires short { length (reply_spelled reply.now) ≤ longest_body }
    requires room { vec_len out.old + length (frame (reply_spelled reply.now))
        ≤ vec_capacity out.old }
    ensures items { out.new.items ≡ out.old.items ++ frame (reply_spelled reply.now) }
    ensures room { vec_capacity out.old ≤ vec_capacity out.new }
{
    let size = body_size(&reply.body);
    append(out, &(size as u32 + 9).to_be_bytes());
    append_tagged(out, body_tag(&reply.body), &reply.point.to_be_bytes());
    append_body(out, &reply.body);
}
