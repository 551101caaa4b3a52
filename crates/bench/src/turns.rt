//! Turns at one lock by many threads: `turns THREADS TURNS` takes and gives that many turns in each of the threads, and
//! prints how many turns there were.
ghost use Rattle.std.specs.Prelude.{◌≤◌, IfSome};
ghost use Rattle.turn_lock.specs.Seats.{IsSeatOf};

use bench_values::{Found, number_at};
use cov_base::Book;
use std::sync::Wait;
use std::thread::{Threads, for_each_mut};
use turn_lock::{Seat, TurnLock};

/// A book without entries, which counts the turns.
#[derive(Drop)]
struct Counter {
    turns: u64,
}

impl Book for Counter {
    ghost use Rattle.std.specs.Prelude.{[]};

    type Base = ();

    type Entry = ();

    ghost base = { λ _. tt };

    ghost entries = { λ _. [] };

    ghost number = { λ _. 0 };

    ghost sound = { λ _ _. Unit {0} };

    ghost is_sound = { λ _. tt };

    fn len(&self) -> u64 {
        0
    }
}

fn take_turns<R: Wait>(
    rt: &R,
    lock: &TurnLock<Counter>,
    mut seat: Seat<Counter>,
    turns: u32,
) -> Seat<Counter>
    requires { IsSeatOf (λ _. tt) (λ _ _. Unit {0}) lock.now seat }
    ensures { IsSeatOf (λ _. tt) (λ _ _. Unit {0}) lock.now result }
{
    for _ in 0..turns {
        let (turn, mut counter) = lock.take(rt, seat);
        counter.turns = counter.turns.wrapping_add(1);
        seat = lock.give(turn, counter);
    }
    seat
}

fn work<R: Wait>(rt: &R, lock: &TurnLock<Counter>, here: &mut Option<Seat<Counter>>, turns: u32)
    requires { IfSome here.old (λ seat. IsSeatOf (λ _. tt) (λ _ _. Unit {0}) lock.now seat) }
{
    if let Some(seat) = here.take() {
        lock.leave(take_turns(rt, lock, seat, turns));
    }
}

fn leave(here: Option<Seat<Counter>>, lock: &TurnLock<Counter>) {
    if let Some(seat) = here {
        lock.leave(seat);
    }
}

/// How many turns so many threads take, 1 to 4.
fn taken<R: Threads + Wait + Sync + AllocGlobal>(
    rt: &R,
    threads: usize,
    turns: u32,
) -> Option<Found>
    requires least { 1 ≤ threads }
    requires most { threads ≤ 4 }
{
    let Ok((lock, mut first)) = TurnLock::open(rt.alloc(), Counter { turns: 0 }, 5) else {
        return None;
    };
    let mut seats = [
        Some(lock.split(&mut first)),
        Some(lock.split(&mut first)),
        Some(lock.split(&mut first)),
        Some(lock.split(&mut first)),
    ];
    for_each_mut(
        rt,
        &mut seats[..threads],
        threads,
        &|_, here| { work(rt, &lock, here, turns) },
    );
    let [a, b, c, d] = seats;
    leave(a, &lock);
    leave(b, &lock);
    leave(c, &lock);
    leave(d, &lock);
    let (turn, counter) = lock.take(rt, first);
    let total = counter.turns;
    lock.leave(lock.give(turn, counter));
    Some(Found::One(total))
}

pub(crate) fn measured<R: Threads + Wait + Sync + AllocGlobal>(
    rt: &R,
    words: &[String],
) -> Option<Found> {
    match (number_at(words, 0), number_at(words, 1)) {
        (Some(threads @ 1..=4), Some(turns)) => taken(rt, threads as usize, turns),
        _ => None,
    }
}
