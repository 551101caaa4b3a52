//! Answers that a frame can hold.
ghost use Rattle.std.specs.Prelude.{◌≡◌, length, true};
ghost use Rattle.std.specs.List.{list_all, AllByRecursion};
ghost use Rattle.cov_proto.specs.declared.replies.Body.TheVariants.{Store};
ghost use Rattle.answer_frames.specs.Frames.{IsWritable, IsKept};
ghost use Rattle.answer_frames.specs.Held.{is_from as is_from_meant, is_text as is_text_meant, is_test as is_test_meant, test_size as test_size_meant, are_tests as are_tests_meant, is_held as is_held_meant, HasDigests};

use cov_proto::LONGEST_BODY;
use record_codec::LONGEST_ID;
use ucis_model::{Answer, HistoryKind, HistoryNode};

/// The most bytes of an answer's fields, before which a frame has a tag of one byte and a point of eight.
const MOST_FIELDS: usize = LONGEST_BODY as usize - (1 + 8);

/// The most rows of bins, each of 14 bytes, behind their number of four.
const MOST_COUNT_ROWS: usize = (MOST_FIELDS - 4) / 14;

/// The most rows of a ranking, each of 12 bytes.
const MOST_RANK_ROWS: usize = MOST_FIELDS / 12;

/// The bytes of a row of a test apart from its texts.
const TEST_SIZE: usize = 59;

// Whether a byte may stand in a text of bytes from `low` on.
fn is_from(low: u8, byte: u8) -> bool
    ensures { result ≡ is_from_meant low byte }
{
    low <= byte && byte < 127
}

fn are_from(low: u8, bytes: &[u8]) -> bool
    ensures { result ≡ list_all (is_from_meant low) bytes.now }
{
    bytes.iter().all(|byte| is_from(low, *byte))
}

fn is_text(least: usize, low: u8, bytes: &[u8]) -> bool
    ensures { result ≡ is_text_meant least low bytes.now }
{
    least <= bytes.len() && bytes.len() <= LONGEST_ID as usize && are_from(low, bytes)
}

fn digest_size(digest: &[u8; 32]) -> usize
    ensures size { result ≡ length digest.now }
    ensures fixed { result ≡ 32 }
{
    digest.len()
}

fn is_test(row: &HistoryNode) -> bool
    ensures test { result ≡ is_test_meant row.now }
    ensures digest { length row.now.digest ≡ 32 }
{
    let _size = digest_size(&row.digest);
    row.kind == HistoryKind::Test
        && row.status < 4
        && is_text(1, 33, row.id.as_slice())
        && is_text(0, 32, row.user.as_slice())
}

// How many bytes the row of a test has.
fn test_size(row: &HistoryNode) -> usize
    requires { is_test_meant row.now ≡ true }
    ensures { result ≡ test_size_meant row.now }
{
    TEST_SIZE + row.id.as_slice().len() + row.user.as_slice().len()
}

fn are_tests(rows: &[HistoryNode]) -> bool
    ensures tests { result ≡ are_tests_meant rows.now }
    ensures digests { result ≡ true → AllByRecursion (λ row. length row.digest ≡ 32) rows.now }
{
    let mut room = MOST_FIELDS - 4;
    for row in rows {
        if !is_test(row) {
            return false;
        }
        let size = test_size(row);
        if room < size {
            return false;
        }
        room -= size;
    }
    true
}

// Whether the answer has a spelling that a frame can hold. One without rows, text or bytes always has.
fn is_held(answer: &Answer) -> bool
    ensures held { result ≡ is_held_meant answer.now }
    ensures digests { result ≡ true → HasDigests answer.now }
{
    match answer {
        Answer::Rows { rows, .. } => rows.as_slice().len() <= MOST_COUNT_ROWS,
        Answer::TestRows { rows, .. } => are_tests(rows.as_slice()),
        Answer::RankRows(rows) => rows.as_slice().len() <= MOST_RANK_ROWS,
        Answer::PathIs(path) => {
            path.as_slice().len() <= MOST_FIELDS && are_from(32, path.as_slice())
        }
        Answer::Chunk { bytes, .. } => bytes.as_slice().len() <= MOST_FIELDS - 8,
        Answer::IdTaken { digest } => digest_size(digest) == 32,
        Answer::Welcome { .. } => true,
        Answer::New => true,
        Answer::Here { .. } => true,
        Answer::CoverageIs(_) => true,
        Answer::Changed => true,
        Answer::Ahead { .. } => true,
        Answer::Full { .. } => true,
        Answer::NoSuchPath => true,
        Answer::AlreadyExcluded => true,
        Answer::NotExcluded => true,
        Answer::NoSuchTest => true,
        Answer::Memory => true,
        Answer::Moved { .. } => true,
        Answer::Stopped => true,
    }
}

/// The answer; or Memory in the place of one that no frame can hold.
pub fn kept(answer: Answer) -> Answer
    ensures kept { IsKept answer result }
    ensures writable { IsWritable (Store result) }
{
    if !is_held(&answer) {
        return Answer::Memory;
    }
    answer
}
