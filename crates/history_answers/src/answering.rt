//! The answer to any ask.
ghost use Rattle.std.specs.Prelude.{◌≡◌, ℕ, ◌<◌, ◌^◌, length, true, option_to_list, IfOk};
ghost use Rattle.cov_history.specs.History.{is_legal};
ghost use Rattle.cov_history.specs.Answers.{answer_at, table as table_meant, is_made as is_made_meant, unless_stopped as unless_meant, entries_of};

use crate::changes::{admit_answer, exclude_answer, include_answer, revise_answer};
use crate::queries::{
    counts_answer, fetch_answer, hello_answer, illegal_answer, name_answer, test_counts_answer,
    tests_answer,
};
use crate::ranks::rank_answer;
use crate::since::has_stop;
use cov_ground::Memory;
use cov_history::{Ask, Entry, Event, coverage_answer};
use design_data::Design;
use std::alloc::Global;
use std::thread::Threads;
use ucis_model::Answer;

/// The answer to a question or to a change that is wanted, whether or not the history has ended.
#[tactic(auto, unfolding(cov_history::specs::Answers::table))]
fn table<R: Threads + Sync>(
    rt: &R,
    alloc: Global,
    opening: &Design,
    entries: &[Entry],
    ask: &Ask,
) -> Result<Answer, Memory>
    requires few { length entries.now < 2 ^ 32 }
    requires legal { is_legal opening.now entries.now ≡ true }
    ensures { IfOk result (λ answer. (caller : ℕ) → answer ≡ table_meant opening.now entries.now caller ask.now) }
{
    match ask {
        Ask::Hello { point } => Ok(hello_answer(opening, entries, *point)),
        Ask::Counts { first, path } => {
            counts_answer(alloc, opening, entries, *first, path.as_slice())
        }
        Ask::Coverage { path } => coverage_answer(alloc, opening, entries, path.as_slice()),
        Ask::Illegal { first } => illegal_answer(alloc, opening, entries, *first),
        Ask::Tests { first } => tests_answer(alloc, opening, entries, *first),
        Ask::TestCounts { first, id, path } => {
            let (id, path) = (id.as_slice(), path.as_slice());
            test_counts_answer(alloc, opening, entries, *first, id, path)
        }
        Ask::Rank => rank_answer(rt, alloc, opening, entries),
        Ask::NameOf { bin } => name_answer(alloc, opening, entries, *bin),
        Ask::Admit { since, content } => admit_answer(alloc, opening, entries, *since, content),
        Ask::Exclude { path } => exclude_answer(alloc, opening, entries, path.as_slice()),
        Ask::Include { path } => include_answer(alloc, opening, entries, path.as_slice()),
        Ask::Revise { since, revision } => revise_answer(alloc, opening, entries, *since, revision),
        Ask::Fetch { place, offset } => fetch_answer(alloc, opening, entries, *place, *offset),
    }
}

pub(crate) fn is_made(answer: &Answer) -> bool
    ensures { result ≡ is_made_meant answer.now }
{
    matches!(answer, Answer::New | Answer::Changed)
}

/// After a Stop nothing is made.
fn unless_stopped(entries: &[Entry], answer: Answer) -> Answer
    ensures { result ≡ unless_meant entries.now answer }
{
    if has_stop(entries) && is_made(&answer) {
        return Answer::Stopped;
    }
    answer
}

/// The answer to an ask at a legal history, whoever asks.
pub fn answer_by_definition<R: Threads + Sync>(
    rt: &R,
    alloc: Global,
    opening: &Design,
    entries: &[Entry],
    ask: &Ask,
) -> Result<Answer, Memory>
    requires { is_legal opening.now entries.now ≡ true }
    ensures { IfOk result (λ answer. (caller : ℕ)
        → answer ≡ answer_at opening.now entries.now caller ask.now) }
{
    let answer = table(rt, alloc, opening, entries, ask)?;
    Ok(unless_stopped(entries, answer))
}

/// The entry that an ask makes where it is answered New or Changed.
pub fn entry_of(caller: u32, ask: Ask) -> Option<Entry>
    ensures { option_to_list result ≡ entries_of caller ask }
{
    let event = match ask {
        Ask::Admit { content, .. } => Event::Admit(content),
        Ask::Exclude { path } => Event::Exclude(path),
        Ask::Include { path } => Event::Include(path),
        Ask::Revise { revision, .. } => Event::Revise(revision),
        _ => return None,
    };
    Some(Entry { caller, event })
}
