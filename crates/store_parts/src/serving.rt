//! What calls answer, as answers.
ghost use Rattle.std.specs.Prelude.{◌≡◌};
ghost use Rattle.store_parts.specs.Told.{admitted, excluded, included, revised, not_read, rows_read, illegal_read, cover_read, tests_read, rank_read, name_read, chunk_read};

use crate::{AdmitFault, Admitted, ExcludeFault, IncludeFault, QueryFault, ReviseFault};
use cov_base::Memory;
use cov_tree::{List, Name};
use sampler::Prepared;
use store_core::Rebinned;
use tally::Ranked;
use ucis_model::{Answer, CountRow, CoverRow, HistoryNode};

/// What an admission answers.
pub fn of_admit(given: Result<Admitted, (Prepared, AdmitFault)>) -> Answer
    ensures { result ≡ admitted given }
{
    match given {
        Ok(Admitted::New { .. }) => Answer::New,
        Ok(Admitted::Here { point }) => Answer::Here { first: point },
        Err((_, AdmitFault::IdTaken { digest })) => Answer::IdTaken { digest },
        Err((_, AdmitFault::Moved { since })) => Answer::Moved { since },
        Err((_, AdmitFault::Full { which, have, want })) => Answer::Full { which, have, want },
        Err((_, AdmitFault::Memory)) => Answer::Memory,
    }
}

/// What an Exclude answers.
pub fn of_exclude(given: Result<(), ExcludeFault>) -> Answer
    ensures { result ≡ excluded given }
{
    match given {
        Ok(()) => Answer::Changed,
        Err(ExcludeFault::NoSuchPath) => Answer::NoSuchPath,
        Err(ExcludeFault::AlreadyExcluded) => Answer::AlreadyExcluded,
        Err(ExcludeFault::Full { which, have, want }) => Answer::Full { which, have, want },
        Err(ExcludeFault::Memory) => Answer::Memory,
    }
}

/// What an Include answers.
pub fn of_include(given: Result<(), IncludeFault>) -> Answer
    ensures { result ≡ included given }
{
    match given {
        Ok(()) => Answer::Changed,
        Err(IncludeFault::NoSuchPath) => Answer::NoSuchPath,
        Err(IncludeFault::NotExcluded) => Answer::NotExcluded,
    }
}

/// What a revision answers.
pub fn of_revise(given: Result<(), (Rebinned, ReviseFault)>) -> Answer
    ensures { result ≡ revised given }
{
    match given {
        Ok(()) => Answer::Changed,
        Err((_, ReviseFault::Moved { since })) => Answer::Moved { since },
        Err((_, ReviseFault::Full { which, have, want })) => Answer::Full { which, have, want },
        Err((_, ReviseFault::Memory)) => Answer::Memory,
    }
}

fn of_fault(fault: QueryFault) -> Answer
    ensures { result ≡ not_read fault }
{
    match fault {
        QueryFault::NoSuchPath => Answer::NoSuchPath,
        QueryFault::NoSuchTest => Answer::NoSuchTest,
        QueryFault::Memory => Answer::Memory,
    }
}

/// What a query for counts of bins answers: how many bins there are, and rows of some of them.
pub fn of_rows(given: Result<(u32, List<CountRow>), QueryFault>) -> Answer
    ensures { result ≡ rows_read given }
{
    match given {
        Ok((total, rows)) => Answer::Rows { total, rows },
        Err(fault) => of_fault(fault),
    }
}

/// What a query for the illegal bins that were hit answers: how many there are, and rows of some of them.
pub fn of_illegal(given: Result<(u32, List<CountRow>), Memory>) -> Answer
    ensures { result ≡ illegal_read given }
{
    match given {
        Ok((total, rows)) => Answer::Rows { total, rows },
        Err(Memory) => Answer::Memory,
    }
}

/// What a query for the coverage of a node answers.
pub fn of_coverage(given: Result<CoverRow, QueryFault>) -> Answer
    ensures { result ≡ cover_read given }
{
    match given {
        Ok(row) => Answer::CoverageIs(row),
        Err(fault) => of_fault(fault),
    }
}

/// What a query for tests answers: how many there are, and rows of some of them.
pub fn of_tests(given: Result<(u32, List<HistoryNode>), Memory>) -> Answer
    ensures { result ≡ tests_read given }
{
    match given {
        Ok((total, rows)) => Answer::TestRows { total, rows },
        Err(Memory) => Answer::Memory,
    }
}

/// What a query for the ranking of the tests answers.
pub fn of_rank(given: Result<List<Ranked>, Memory>) -> Answer
    ensures { result ≡ rank_read given }
{
    match given {
        Ok(rows) => Answer::RankRows(rows),
        Err(Memory) => Answer::Memory,
    }
}

/// What a query for the path of a bin answers.
pub fn of_name(given: Result<Name, QueryFault>) -> Answer
    ensures { result ≡ name_read given }
{
    match given {
        Ok(path) => Answer::PathIs(path),
        Err(fault) => of_fault(fault),
    }
}

/// What a query for bytes of a record answers: how many bytes it has, and some of them.
pub fn of_chunk(given: Result<(u64, Name), QueryFault>) -> Answer
    ensures { result ≡ chunk_read given }
{
    match given {
        Ok((len, bytes)) => Answer::Chunk { len, bytes },
        Err(fault) => of_fault(fault),
    }
}
