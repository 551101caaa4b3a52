//! Asks that are put to both stores.
ghost use Rattle.std.specs.Prelude.{IfSome};
ghost use Rattle.store_core.specs.declared.asks.Ask.{Ask as TwinAsk};
ghost use Rattle.store_core.specs.Asks.{Meets};
ghost use Rattle.merge_store.specs.Stores.{opening_of, entries_of};

use crate::stores::Stores;
use crate::twins::twin_of;
use ask_rows::text_of;
use cov_history::Ask;
use history_answers::PlainStore;
use merge_store::Store;
use record_codec::Record;
use std::alloc::Global;
use std::thread::Threads;
use store_core::Ask as Twin;
use ucis_model::Answer;

/// The ask that a line names, made for the history of now.
fn ask_of(alloc: Global, store: &Store, line: &str) -> Option<Ask> {
    ask_rows::ask_of(alloc, store.design(), store.point(), line)
}

/// What the store answered, as text, and whether the plain store, if there is one, answered the same.
#[derive(Drop)]
pub struct Told {
    pub text: String,
    pub alike: bool,
}

/// What a plain store answers; None where the ask isn't made for its history, or memory is wanted.
fn meant<R: Threads + Sync>(
    rt: &R,
    alloc: Global,
    plain: &mut PlainStore,
    ask: Ask,
) -> Option<Answer> {
    if !plain.suits(&ask) {
        return None;
    }
    plain.serve(rt, alloc, 0, ask).ok()
}

/// Puts an ask to a plain store, if there is one: whether it answers so, and stands at that point behind it.
fn alike<R: Threads + Sync>(
    rt: &R,
    alloc: Global,
    plain: &mut PlainStore,
    ask: Option<Ask>,
    point: u64,
    text: &str,
) -> bool {
    let Some(ask) = ask else {
        return true;
    };
    match meant(rt, alloc, plain, ask) {
        Some(meant) => plain.point() == point && text_of(alloc, &meant).as_str() == text,
        None => false,
    }
}

/// Puts an ask to a store: its answer as text, and the point behind it.
#[tactic(auto, using(crate::proofs::Meeting::ready_still))]
fn answered<R: Threads + Sync>(
    rt: &R,
    alloc: Global,
    store: &mut Store,
    twin: Twin,
) -> (String, u64)
    requires { Meets (opening_of store.old) (entries_of store.old) twin }
    ensures kept { (later : TwinAsk)
        → Meets (opening_of store.old) (entries_of store.old) later
        → Meets (opening_of store.new) (entries_of store.new) later }
{
    let given = store.serve(rt, 0, twin);
    (text_of(alloc, &given.answer), given.point)
}

/// Puts an ask to both stores; to the one alone where there is none for the plain one.
fn put<R: Threads + Sync>(
    rt: &R,
    alloc: Global,
    stores: &mut Stores,
    ask: Option<Ask>,
    twin: Twin,
) -> Told
    requires { Meets (opening_of stores.old.store) (entries_of stores.old.store) twin }
    ensures kept { (later : TwinAsk)
        → Meets (opening_of stores.old.store) (entries_of stores.old.store) later
        → Meets (opening_of stores.new.store) (entries_of stores.new.store) later }
{
    let (text, point) = answered(rt, alloc, &mut stores.store, twin);
    let alike = alike(rt, alloc, &mut stores.plain, ask, point, text.as_str());
    Told { text, alike }
}

/// The ask of a line for the plain store, if there is one.
fn plain_ask(alloc: Global, stores: &Stores, line: &str) -> Option<Ask> {
    if stores.alone {
        return None;
    }
    ask_of(alloc, &stores.store, line)
}

/// The ask of a line for the store.
fn twin_ask<R: Threads + Sync>(rt: &R, alloc: Global, store: &Store, line: &str) -> Option<Twin>
    ensures { IfSome result (λ twin. Meets (opening_of store.now) (entries_of store.now) twin) }
{
    match ask_of(alloc, store, line) {
        Some(ask) => twin_of(rt, alloc, store, ask),
        None => None,
    }
}

/// What the ask of a line is answered; None where it isn't made for this history.
pub fn served<R: Threads + Sync>(
    rt: &R,
    alloc: Global,
    stores: &mut Stores,
    line: &str,
) -> Option<Told>
    ensures kept { (later : TwinAsk)
        → Meets (opening_of stores.old.store) (entries_of stores.old.store) later
        → Meets (opening_of stores.new.store) (entries_of stores.new.store) later }
{
    let Some(twin) = twin_ask(rt, alloc, &stores.store, line) else {
        return None;
    };
    let ask = plain_ask(alloc, stores, line);
    Some(put(rt, alloc, stores, ask, twin))
}

/// Makes the ask of the first line ready, and puts that of the second before it: what the second is answered, and what the
/// first.
pub fn late<R: Threads + Sync>(
    rt: &R,
    alloc: Global,
    stores: &mut Stores,
    first: &str,
    second: &str,
) -> (Option<Told>, Option<Told>) {
    let Some(twin) = twin_ask(rt, alloc, &stores.store, first) else {
        return (None, None);
    };
    let ask = plain_ask(alloc, stores, first);
    let before = served(rt, alloc, stores, second);
    (before, Some(put(rt, alloc, stores, ask, twin)))
}

/// Whether the record of a line follows the history of the plain store, which then has it.
fn follows(alloc: Global, stores: &mut Stores, line: &str) -> bool {
    match ask_of(alloc, &stores.store, line) {
        Some(Ask::Admit { content, .. }) => admits(alloc, &mut stores.plain, content),
        _ => false,
    }
}

/// Whether a record follows the history of a plain store, which then has it.
fn admits(alloc: Global, plain: &mut PlainStore, content: Record) -> bool {
    plain.admit(alloc, 0, content).unwrap_or(false)
}

/// Puts an ask to a store: whether a record is new to it.
fn is_new<R: Threads + Sync>(rt: &R, store: &mut Store, twin: Twin) -> bool
    requires { Meets (opening_of store.old) (entries_of store.old) twin }
{
    matches!(store.serve(rt, 0, twin).answer, Answer::New)
}

/// Admits the record of a line to both stores, of which the plain one works no answer out: whether it is new to both.
pub fn admitted<R: Threads + Sync>(rt: &R, alloc: Global, stores: &mut Stores, line: &str) -> bool {
    let Some(twin) = twin_ask(rt, alloc, &stores.store, line) else {
        return false;
    };
    is_new(rt, &mut stores.store, twin) && follows(alloc, stores, line)
}
