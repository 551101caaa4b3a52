//! Turns at one lock, by seats of one thread and of several.
ghost use Rattle.std.specs.Prelude.{◌≡◌, ◌≤◌, ◌-◌, length, nat_le, true, IfSome};
ghost use Rattle.std.specs.List.{list_all};
ghost use Rattle.turn_lock.specs.History.{AtMostOneMore};
ghost use Rattle.turn_lock.specs.Seats.{IsSeatOf, free, left};

use cov_base::Book;
use cov_tree::Name;
use std::alloc::Global;
use std::sync::Wait;
use std::test::*;
use std::thread::for_each_mut;
use turn_lock::{Seat, TurnLock};

/// What stays of a list of entries: how many bytes a name may have.
#[derive(Clone, Copy)]
struct Limit {
    longest: u32,
}

#[derive(Drop)]
struct Entry {
    number: u32,
    /// How many entries its caller had made before.
    at: u32,
    name: Name,
}

/// A list of numbered entries with names, none of which is too long.
#[derive(Drop)]
struct Entries {
    limit: Limit,
    items: Vec<Entry>,
    ghost short: { list_all (λ entry. nat_le (length entry.name) limit.longest) items.items ≡ true },
}

impl Book for Entries {
    type Base = Limit;

    type Entry = Entry;

    ghost base = { λ book. book.limit };

    ghost entries = { λ book. book.items.items };

    ghost number = { λ entry. entry.number };

    ghost sound = { λ limit entries. list_all (λ entry. nat_le (length entry.name) limit.longest) entries ≡ true };

    ghost is_sound = { λ book. book.short };

    fn len(&self) -> u64 {
        self.items.len() as u64
    }
}

impl Entries {
    fn of(alloc: Global, numbers: &[u32]) -> Entries {
        let limit = Limit { longest: 9 };
        let mut entries = Entries {
            limit,
            items: Vec::new(alloc),
        };
        for number in numbers {
            entries.add(alloc, *number, 0);
        }
        entries
    }

    // Adds an entry where there is memory and its name isn't too long.
    fn add(&mut self, alloc: Global, number: u32, at: u32)
        ensures base { self.new.limit ≡ self.old.limit }
        ensures entries { AtMostOneMore (λ entry. entry.number) number self.old.items.items self.new.items.items }
    {
        let Ok(name) = Name::of(alloc, b"entry") else {
            return;
        };
        if name.as_slice().len() > self.limit.longest as usize {
            return;
        }
        let _ = self.items.push(Entry { number, at, name });
    }

    // The entries of one number, which stand in the order in which they were made.
    fn count_in_order(&self, number: u32) -> Option<u32> {
        let mut next = 0;
        for entry in self.items.iter().filter(|entry| entry.number == number) {
            if entry.at != next {
                return None;
            }
            next = next.checked_add(1)?;
        }
        Some(next)
    }
}

// Takes a turn, and adds an entry of the seat's number.
fn add<R: Wait>(
    rt: &R,
    alloc: Global,
    lock: &TurnLock<Entries>,
    seat: Seat<Entries>,
    at: u32,
) -> Seat<Entries>
    requires { IsSeatOf ⟦<Entries as Book>⟧.base ⟦<Entries as Book>⟧.sound lock.now seat }
    ensures { IsSeatOf ⟦<Entries as Book>⟧.base ⟦<Entries as Book>⟧.sound lock.now result }
{
    let number = seat.number();
    let (turn, mut book) = lock.take(rt, seat);
    book.add(alloc, number, at);
    lock.give(turn, book)
}

fn add_many<R: Wait>(
    rt: &R,
    alloc: Global,
    lock: &TurnLock<Entries>,
    mut seat: Seat<Entries>,
    from: u32,
    to: u32,
) -> Seat<Entries>
    requires { IsSeatOf ⟦<Entries as Book>⟧.base ⟦<Entries as Book>⟧.sound lock.now seat }
    ensures { IsSeatOf ⟦<Entries as Book>⟧.base ⟦<Entries as Book>⟧.sound lock.now result }
{
    for at in from..to {
        seat = add(rt, alloc, lock, seat, at);
    }
    seat
}

// The seat has this number, and has seen so many entries.
fn has_seen(seat: &Seat<Entries>, number: u32, seen: u64) -> bool {
    seat.number() == number && seat.seen() == seen
}

// So many more seats can be split off, and so many numbers are left.
fn has_room(seat: &Seat<Entries>, free: u32, left: u32) -> bool {
    seat.free() == free && seat.left() == left
}

#[test]
fn seats_meet_and_end(rt: HostRuntime) -> Result<(), Fail> {
    let alloc = rt.alloc();
    let book = Entries::of(alloc, &[0, 1, 7]);
    let (lock, mut first) = TurnLock::open(alloc, book, 2)?;
    assert!(rt; has_seen(&first, 0, 3) && has_room(&first, 1, 4_294_967_295));
    let second = lock.split(&mut first);
    assert!(rt; has_seen(&second, 1, 3) && has_room(&second, 0, 0));
    assert!(rt; has_room(&first, 0, 4_294_967_294));
    let mut second = add(&rt, alloc, &lock, second, 0);
    assert!(rt; has_seen(&first, 0, 3) && has_seen(&second, 1, 4));
    lock.meet(&mut first, &mut second);
    assert!(rt; has_seen(&first, 0, 4) && has_seen(&second, 1, 4));
    lock.end(second, &mut first);
    assert!(rt; has_seen(&first, 0, 4) && has_room(&first, 1, 4_294_967_294));
    let mut third = lock.split(&mut first);
    assert!(rt; has_seen(&third, 2, 4));
    lock.end(first, &mut third);
    assert!(rt; has_seen(&third, 2, 4) && has_room(&third, 1, 4_294_967_293));
    lock.leave(third);
    Ok(())
}

// Two seats of one thread, as long as they are there.
struct Desk {
    first: Option<Seat<Entries>>,
    second: Option<Seat<Entries>>,
}

fn clear(mut desks: Vec<Desk>, lock: &TurnLock<Entries>) {
    while let Some(desk) = desks.pop() {
        let Desk { first, second } = desk;
        if let Some(seat) = first {
            lock.leave(seat);
        }
        if let Some(seat) = second {
            lock.leave(seat);
        }
    }
    desks.destroy_empty();
}

const ROUNDS: u32 = 50;

// Both seats add entries and meet now and then. The second ends, and the first goes on.
fn add_in_pairs<R: Wait>(
    rt: &R,
    alloc: Global,
    lock: &TurnLock<Entries>,
    mut first: Seat<Entries>,
    mut second: Seat<Entries>,
)
    requires first { IsSeatOf ⟦<Entries as Book>⟧.base ⟦<Entries as Book>⟧.sound lock.now first }
    requires second { IsSeatOf ⟦<Entries as Book>⟧.base ⟦<Entries as Book>⟧.sound lock.now second }
{
    for at in 0..ROUNDS {
        first = add(rt, alloc, lock, first, at);
        second = add(rt, alloc, lock, second, at);
        if at % 4 == 0 {
            lock.meet(&mut first, &mut second);
        }
    }
    lock.end(second, &mut first);
    lock.leave(add_many(rt, alloc, lock, first, ROUNDS, 2 * ROUNDS));
}

// In each round the seat makes another, both add entries, they meet, and the other ends.
fn add_with_guests<R: Wait>(
    rt: &R,
    alloc: Global,
    lock: &TurnLock<Entries>,
    mut host: Seat<Entries>,
)
    requires { IsSeatOf ⟦<Entries as Book>⟧.base ⟦<Entries as Book>⟧.sound lock.now host }
{
    for at in 0..ROUNDS {
        if host.free() > 0 && host.left() > 0 {
            let guest = lock.split(&mut host);
            host = add(rt, alloc, lock, host, at);
            let mut guest = add_many(rt, alloc, lock, guest, 0, 3);
            lock.meet(&mut host, &mut guest);
            lock.end(guest, &mut host);
        }
    }
    lock.leave(host);
}

fn work<R: Wait>(rt: &R, alloc: Global, lock: &TurnLock<Entries>, desk: &mut Desk)
    requires first { IfSome desk.old.first (λ s. IsSeatOf ⟦<Entries as Book>⟧.base ⟦<Entries as Book>⟧.sound lock.now s) }
    requires second { IfSome desk.old.second (λ s. IsSeatOf ⟦<Entries as Book>⟧.base ⟦<Entries as Book>⟧.sound lock.now s) }
{
    if let Some(first) = desk.first.take() {
        match desk.second.take() {
            Some(second) => add_in_pairs(rt, alloc, lock, first, second),
            None => add_with_guests(rt, alloc, lock, first),
        }
    }
}

fn add_alone<R: Wait>(rt: &R, alloc: Global, lock: &TurnLock<Entries>, desk: &mut Desk)
    requires { IfSome desk.old.first (λ s. IsSeatOf ⟦<Entries as Book>⟧.base ⟦<Entries as Book>⟧.sound lock.now s) }
{
    if let Some(seat) = desk.first.take() {
        lock.leave(add_many(rt, alloc, lock, seat, 0, 1000));
    }
}

#[test]
fn two_threads(rt: HostRuntime) -> Result<(), Fail> {
    let alloc = rt.alloc();
    let book = Entries::of(alloc, &[]);
    let (lock, mut first) = TurnLock::open(alloc, book, 3)?;
    let Ok(mut seats) = Vec::with_capacity(alloc, 2) else {
        lock.leave(first);
        return Err("no memory".into());
    };
    seats.push_reserved(Desk {
        first: Some(lock.split(&mut first)),
        second: None,
    });
    seats.push_reserved(Desk {
        first: Some(lock.split(&mut first)),
        second: None,
    });
    for_each_mut(
        &rt,
        seats.as_mut_slice(),
        2,
        &|_, desk| { add_alone(&rt, alloc, &lock, desk) },
    );
    clear(seats, &lock);
    let (turn, book) = lock.take(&rt, first);
    let counts = (book.len(), book.count_in_order(1), book.count_in_order(2));
    lock.leave(lock.give(turn, book));
    assert!(rt; counts == (2000, Some(1000), Some(1000)));
    Ok(())
}

// A desk with two new seats.
fn pair(lock: &TurnLock<Entries>, first: &mut Seat<Entries>) -> Desk
    requires seat { IsSeatOf ⟦<Entries as Book>⟧.base ⟦<Entries as Book>⟧.sound lock.now first.old }
    requires room { (2 ≤ free first.old) × (2 ≤ left first.old) }
    ensures seat { IsSeatOf ⟦<Entries as Book>⟧.base ⟦<Entries as Book>⟧.sound lock.now first.new }
    ensures room { (free first.new ≡ free first.old - 2) × (left first.new ≡ left first.old - 2) }
    ensures first { IfSome result.first (λ s. IsSeatOf ⟦<Entries as Book>⟧.base ⟦<Entries as Book>⟧.sound lock.now s) }
    ensures second { IfSome result.second (λ s. IsSeatOf ⟦<Entries as Book>⟧.base ⟦<Entries as Book>⟧.sound lock.now s) }
{
    Desk {
        first: Some(lock.split(first)),
        second: Some(lock.split(first)),
    }
}

/// How many entries each of the first seats made in `four_threads`.
static COUNTS: [u32; 8] = [50, 0, 100, 50, 100, 50, 100, 50];

fn has_counts(book: &Entries) -> bool {
    let mut number = 0u32;
    for count in &COUNTS {
        if book.count_in_order(number) != Some(*count) {
            return false;
        }
        number = number.wrapping_add(1);
    }
    true
}

#[test]
fn four_threads(rt: HostRuntime) -> Result<(), Fail> {
    let alloc = rt.alloc();
    let book = Entries::of(alloc, &[]);
    let (lock, mut first) = TurnLock::open(alloc, book, 9)?;
    let Ok(mut desks) = Vec::with_capacity(alloc, 4) else {
        lock.leave(first);
        return Err("no memory".into());
    };
    let reader = lock.split(&mut first);
    desks.push_reserved(pair(&lock, &mut first));
    desks.push_reserved(pair(&lock, &mut first));
    desks.push_reserved(pair(&lock, &mut first));
    desks.push_reserved(Desk {
        first: Some(first),
        second: None,
    });
    for_each_mut(
        &rt,
        desks.as_mut_slice(),
        4,
        &|_, desk| { work(&rt, alloc, &lock, desk) },
    );
    clear(desks, &lock);
    let (turn, book) = lock.take(&rt, reader);
    let counted = has_counts(&book);
    let guests = (8..58).all(|number| book.count_in_order(number) == Some(3));
    let len = book.len();
    lock.leave(lock.give(turn, book));
    assert!(rt; counted && guests && len == 650);
    Ok(())
}
