//! Rows of replies, until the bytes end.
ghost use Rattle.std.specs.Prelude.{◌≡◌, IfOk};
ghost use Rattle.request_forms.specs.Given.{Gives, GivesOrLacks};
ghost use Rattle.request_forms.specs.Reading.{Reader};
ghost use Rattle.cov_proto.specs.Reading.{limit_at, appended, rows};
ghost use Rattle.cov_proto.specs.Replies.{count_row_at, cover_row_at, test_row_at, rank_row_at};

use cov_tree::{List, Name};
use request_forms::fault::{BadAt, Fault};
use request_forms::fields::{digest_at, end, flag_at, kind_at, text_at, u8_within, u32_at, u64_at};
use std::alloc::Global;
use tally::Ranked;
use ucis_model::{CountRow, CoverRow, HistoryKind, HistoryNode, Which};

#[tactic(auto, unfolding(crate::specs::Reading::limit_at))]
pub(crate) fn limit_at(bytes: &[u8]) -> Result<(Which, &[u8]), BadAt>
    ensures { Gives (λ x. (x.0, x.1.now)) result (limit_at bytes.now) }
{
    let (number, rest) = u8_within(0, 3, bytes)?;
    match number {
        0 => Ok((Which::Tests, rest)),
        1 => Ok((Which::Bytes, rest)),
        2 => Ok((Which::Entries, rest)),
        _ => Ok((Which::History, rest)),
    }
}

#[inline]
fn count_row(bytes: &[u8]) -> Result<(CountRow, &[u8]), BadAt>
    ensures { Gives (λ x. (x.0, x.1.now)) result (count_row_at bytes.now) }
{
    let (bin, rest) = u32_at(bytes)?;
    let (kind, rest) = kind_at(rest)?;
    let (excluded, rest) = flag_at(rest)?;
    let (count, rest) = u64_at(rest)?;
    let row = CountRow {
        bin,
        kind,
        excluded,
        count,
    };
    Ok((row, rest))
}

pub(crate) fn cover_row(bytes: &[u8]) -> Result<(CoverRow, &[u8]), BadAt>
    ensures { Gives (λ x. (x.0, x.1.now)) result (cover_row_at bytes.now) }
{
    let (millionths, rest) = u32_at(bytes)?;
    let (met, rest) = flag_at(rest)?;
    let (excluded, rest) = flag_at(rest)?;
    let (covered, rest) = u32_at(rest)?;
    let (bins, rest) = u32_at(rest)?;
    let row = CoverRow {
        millionths,
        met,
        excluded,
        covered,
        bins,
    };
    Ok((row, rest))
}

#[inline]
fn rank_row(bytes: &[u8]) -> Result<(Ranked, &[u8]), BadAt>
    ensures { Gives (λ x. (x.0, x.1.now)) result (rank_row_at bytes.now) }
{
    let (test, rest) = u32_at(bytes)?;
    let (gain, rest) = u64_at(rest)?;
    Ok((Ranked { test, gain }, rest))
}

// The texts of a test, copied.
fn texts_of(alloc: Global, id: &[u8], user: &[u8]) -> Result<(Name, Name), cov_tree::Memory>
    ensures { IfOk result (λ x. (x.0 ≡ id.now) × (x.1 ≡ user.now)) }
{
    let id = Name::of(alloc, id)?;
    let user = Name::of(alloc, user)?;
    Ok((id, user))
}

fn test_row(alloc: Global, bytes: &[u8]) -> Result<(HistoryNode, &[u8]), Fault>
    ensures { GivesOrLacks (λ x. (x.0, x.1.now)) result (test_row_at bytes.now) }
{
    let (point, rest) = u64_at(bytes)?;
    let (status, rest) = u8_within(0, 3, rest)?;
    let (seed, rest) = u64_at(rest)?;
    let (time, rest) = u64_at(rest)?;
    let (digest, rest) = digest_at(rest)?;
    let (id, rest) = text_at(1, 33, rest)?;
    let (user, rest) = text_at(0, 32, rest)?;
    let (id, user) = texts_of(alloc, id, user)?;
    let row = HistoryNode {
        kind: HistoryKind::Test,
        point,
        status,
        seed,
        time,
        digest,
        id,
        user,
    };
    Ok((row, rest))
}

/// How rows of one kind are read.
pub(crate) trait Rows {
    type Row: Drop;

    ghost row_at: { Self → Reader Self.Row };

    /// The row at the front of the bytes.
    fn row<'a>(&self, alloc: Global, bytes: &'a [u8]) -> Result<(Self::Row, &'a [u8]), Fault>
        ensures { GivesOrLacks (λ x. (x.0, x.1.now)) result (row_at self.now bytes.now) };
}

/// Bins with their counts.
pub(crate) struct CountRows;

impl Rows for CountRows {
    type Row = CountRow;

    ghost row_at = { λ _. count_row_at };

    #[inline]
    fn row<'a>(&self, _: Global, bytes: &'a [u8]) -> Result<(CountRow, &'a [u8]), Fault> {
        Ok(count_row(bytes)?)
    }
}

/// Tests.
pub(crate) struct TestRows;

impl Rows for TestRows {
    type Row = HistoryNode;

    ghost row_at = { λ _. test_row_at };

    fn row<'a>(&self, alloc: Global, bytes: &'a [u8]) -> Result<(HistoryNode, &'a [u8]), Fault> {
        test_row(alloc, bytes)
    }
}

/// Tests of a ranking.
pub(crate) struct RankRows;

impl Rows for RankRows {
    type Row = Ranked;

    ghost row_at = { λ _. rank_row_at };

    #[inline]
    fn row<'a>(&self, _: Global, bytes: &'a [u8]) -> Result<(Ranked, &'a [u8]), Fault> {
        Ok(rank_row(bytes)?)
    }
}

// Puts the row at the front of the bytes behind the others.
#[inline]
fn push_row<'a, R: Rows>(
    alloc: Global,
    reader: &R,
    bytes: &'a [u8],
    rows: &mut Vec<R::Row>,
) -> Result<&'a [u8], Fault>
    ensures { GivesOrLacks (λ rest. (rows.new.items, rest.now)) result
        (appended rows.old.items (R.row_at reader.now bytes.now)) }
{
    let (row, rest) = reader.row(alloc, bytes)?;
    rows.push(row)?;
    Ok(rest)
}

/// All of the bytes as rows.
pub(crate) fn all_rows<R: Rows>(
    alloc: Global,
    reader: &R,
    bytes: &[u8],
) -> Result<List<R::Row>, Fault>
    ensures { GivesOrLacks (λ x. x) result (rows (R.row_at reader.now) bytes.now) }
{
    let mut read = Vec::new(alloc);
    let mut rest = bytes;
    for _ in 0..bytes.len() {
        if rest.is_empty() {
            return Ok(List::of(read));
        }
        rest = push_row(alloc, reader, rest, &mut read)?;
    }
    end(rest)?;
    Ok(List::of(read))
}
