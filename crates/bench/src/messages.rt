//! A long reply: `messages ROWS WRITES READS` writes a reply of so many rows that many times and reads its body that many
//! times. It prints how many bytes its frame has, and a sum of them.
ghost use Rattle.std.specs.Prelude.{◌≤◌, length, vec_capacity};
ghost use Rattle.cov_proto.specs.Frames.{frame, longest_body};
ghost use Rattle.cov_proto.specs.Limits.{IsReply};
ghost use Rattle.cov_proto.specs.Spelled.{reply_spelled};

use bench_values::{Found, after, number_at};
use cov_proto::{Body, LONGEST_BODY, Reply, read_reply, write_reply};
use cov_tree::List;
use design_data::BinKind;
use std::alloc::Global;
use ucis_model::{Answer, CountRow};

/// The most rows of a reply.
const MOST: usize = 65_536;

fn kind_of(number: u64) -> BinKind {
    match number >> 62 {
        0 => BinKind::CvgBin,
        1 => BinKind::IllegalBin,
        2 => BinKind::IgnoreBin,
        _ => BinKind::DefaultBin,
    }
}

/// The rows, fewer where memory ran out.
fn rows_of(alloc: Global, count: u32) -> List<CountRow> {
    let mut rows = Vec::new(alloc);
    let mut number = 1u64;
    for bin in 0..count {
        number = after(number);
        let row = CountRow {
            bin,
            kind: kind_of(number),
            excluded: number & 1 == 1,
            count: number >> 8,
        };
        let _ = rows.push(row);
    }
    List::of(rows)
}

fn write(reply: &Reply, out: &mut Vec<u8>)
    requires spelled { IsReply reply.now }
    requires short { length (reply_spelled reply.now) ≤ longest_body }
    requires room { length (frame (reply_spelled reply.now)) ≤ vec_capacity out.old }
    ensures room { vec_capacity out.old ≤ vec_capacity out.new }
{
    out.clear();
    write_reply(reply, out);
}

fn write_all(reply: &Reply, writes: u32, out: &mut Vec<u8>)
    requires spelled { IsReply reply.now }
    requires short { length (reply_spelled reply.now) ≤ longest_body }
    requires room { length (frame (reply_spelled reply.now)) ≤ vec_capacity out.old }
{
    for _ in 0..writes {
        write(reply, out);
    }
}

/// The frame of the rows, written so many times.
#[tactic(auto, unfolding(cov_proto::specs::Spelled::reply_spelled, cov_proto::specs::Spelled::body_fields, cov_proto::specs::Spelled::answer_fields), using(cov_proto::proofs::Sizes::size_of_count_rows))]
fn frame_of(alloc: Global, rows: List<CountRow>, writes: u32) -> Option<Vec<u8>> {
    let count = rows.as_slice().len();
    if count > MOST {
        return None;
    }
    let mut out = Vec::with_capacity(alloc, 17 + 14 * count).ok()?;
    let total = count as u32;
    let body = Body::Store(Answer::Rows { total, rows });
    write_all(&Reply { point: 1, body }, writes, &mut out);
    Some(out)
}

/// Reads the body of a frame so many times: whether it is one each time.
fn is_read(alloc: Global, body: &[u8], reads: u32) -> bool {
    if body.len() > LONGEST_BODY as usize {
        return false;
    }
    let mut done = true;
    for _ in 0..reads {
        done &= read_reply(alloc, body).is_ok();
    }
    done
}

/// A sum of the bytes in which their order counts.
fn sum_of(bytes: &[u8]) -> u64 {
    let mut sum = 0u64;
    for byte in bytes {
        sum = after(sum ^ u64::from(*byte));
    }
    sum
}

/// How many bytes the frame has, and their sum, its body read so many times.
fn read(alloc: Global, frame: &[u8], reads: u32) -> Option<Found> {
    match frame.split_at_checked(4) {
        Some((_, body)) if is_read(alloc, body, reads) => {
            Some(Found::Two(frame.len() as u64, sum_of(frame)))
        }
        _ => None,
    }
}

/// The same, of the rows written so many times.
fn written(alloc: Global, rows: List<CountRow>, writes: u32, reads: u32) -> Option<Found> {
    match frame_of(alloc, rows, writes) {
        Some(frame) => read(alloc, &frame, reads),
        None => None,
    }
}

/// The same, of so many rows.
fn written_rows(alloc: Global, count: u32, writes: u32, reads: u32) -> Option<Found> {
    let rows = rows_of(alloc, count);
    if rows.as_slice().len() == count as usize {
        written(alloc, rows, writes, reads)
    } else {
        None
    }
}

pub(crate) fn measured(alloc: Global, words: &[String]) -> Option<Found> {
    if let Some(count) = number_at(words, 0)
        && let Some(writes) = number_at(words, 1)
        && let Some(reads) = number_at(words, 2)
    {
        written_rows(alloc, count, writes, reads)
    } else {
        None
    }
}
