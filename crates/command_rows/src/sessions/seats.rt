//! The rows of callers of one store behind its lock.
ghost use Rattle.std.specs.Prelude.{IfSome};
ghost use Rattle.cov_workers.specs.Sound.{IsSound};
ghost use Rattle.cov_workers.specs.Stores.{opening_of};
ghost use Rattle.cov_workers.specs.Shares.{HasSeat};

use crate::sessions::Table;
use crate::sessions::replies::show_caller;
use crate::sessions::runs::design_of;
use crate::words::{number_of, say, take};
use cov_base::{MemDoor, MemLink, OpenGate, SureLink};
use cov_workers::{Ended, Shared, Store, open, serve_connection, serve_rounds};
use design_data::Design;
use std::alloc::Global;
use std::io::Print;
use std::sync::{Arc, Wait};
use std::thread::Threads;
use turn_lock::Seat;

/// The most bytes of one read or write.
pub(crate) const PIECE: usize = 65_536;

/// A store behind its lock, and two seats.
pub(crate) struct Seated {
    pub(crate) shared: Shared<Store>,
    pub(crate) first: Seat<Store>,
    pub(crate) second: Seat<Store>,
}

/// A fresh store of this design, over whose first seat this was asked before the second was split off.
fn open_seats<R: Threads + Wait + Sync>(
    rt: &R,
    alloc: Global,
    design: Arc<Design>,
    before: &mut Vec<u8>,
) -> Option<Seated>
    ensures first { IfSome result (λ s. HasSeat opening_of IsSound s.shared s.first) }
    ensures second { IfSome result (λ s. HasSeat opening_of IsSound s.shared s.second) }
{
    let Ok((shared, first)) = open(alloc, design, 2) else {
        return None;
    };
    let mut link = SureLink::new(alloc, take(alloc, before), PIECE);
    let (mut first, _) = serve_connection(rt, alloc, &shared, first, &mut link, &OpenGate);
    let second = shared.split(&mut first);
    Some(Seated {
        shared,
        first,
        second,
    })
}

/// The seats of a row, or none where there is no design or no memory.
pub(crate) fn seats_of<R: Threads + Wait + Sync>(
    rt: &R,
    alloc: Global,
    table: &mut Table,
) -> Option<Seated>
    ensures first { IfSome result (λ s. HasSeat opening_of IsSound s.shared s.first) }
    ensures second { IfSome result (λ s. HasSeat opening_of IsSound s.shared s.second) }
{
    match design_of(alloc, &table.design) {
        Some(design) => open_seats(rt, alloc, design, &mut table.before),
        None => None,
    }
}

/// What was written for a caller, and how its session ended.
#[derive(Drop)]
pub(crate) struct Served {
    pub(crate) link: SureLink,
    pub(crate) ended: Ended,
}

/// Serves a caller, who asks this.
fn serve<R: Threads + Wait + Sync>(
    rt: &R,
    alloc: Global,
    shared: &Shared<Store>,
    seat: Seat<Store>,
    asked: Vec<u8>,
) -> (Seat<Store>, Served)
    requires { HasSeat opening_of IsSound shared.now seat }
    ensures { HasSeat opening_of IsSound shared.now result.0 }
{
    let mut link = SureLink::new(alloc, asked, PIECE);
    let (seat, ended) = serve_connection(rt, alloc, shared, seat, &mut link, &OpenGate);
    (seat, Served { link, ended })
}

/// Serves the first caller, lets both seats meet, and serves the second.
fn serve_both<R: Threads + Wait + Sync>(
    rt: &R,
    alloc: Global,
    seated: Seated,
    table: &mut Table,
) -> (Served, Served)
    requires first { HasSeat opening_of IsSound seated.shared seated.first }
    requires second { HasSeat opening_of IsSound seated.shared seated.second }
{
    let Seated {
        shared,
        first,
        mut second,
    } = seated;
    let first_asked = take(alloc, &mut table.first);
    let second_asked = take(alloc, &mut table.input);
    let (mut first, one) = serve(rt, alloc, &shared, first, first_asked);
    shared.meet(&mut first, &mut second);
    shared.leave(first);
    let (second, other) = serve(rt, alloc, &shared, second, second_asked);
    shared.leave(second);
    (one, other)
}

/// Writes what a caller was answered.
pub(crate) fn show_served<R: Print>(rt: &R, alloc: Global, who: &str, served: &Served) {
    show_caller(rt, alloc, who, served.link.contents(), served.ended);
}

/// Serves both callers, and shows what each was answered.
pub(crate) fn meet_row<R: Threads + Wait + Sync + Print>(rt: &R, alloc: Global, table: &mut Table) {
    match seats_of(rt, alloc, table) {
        Some(seated) => {
            let (first, second) = serve_both(rt, alloc, seated, table);
            show_served(rt, alloc, "first", &first);
            show_served(rt, alloc, "second", &second);
        }
        None => say(rt, "no store"),
    }
}

/// A door that has one connection, which asks this.
fn door_of(alloc: Global, asked: Vec<u8>) -> MemDoor {
    let mut links = Vec::new(alloc);
    let link = MemLink::new(alloc, asked, PIECE, Vec::new(alloc), Vec::new(alloc));
    let _ = links.push(link);
    MemDoor::new(links, Vec::new(alloc))
}

/// How many connections of a door were handed out, and how much of the history the seat has seen then.
fn serve_door<R: Threads + Wait + Sync>(
    rt: &R,
    alloc: Global,
    seated: Seated,
    door: &mut MemDoor,
    rounds: u64,
) -> (u64, u64)
    requires { HasSeat opening_of IsSound seated.shared seated.first }
{
    let Seated {
        shared,
        first,
        second,
    } = seated;
    shared.leave(second);
    let (seat, handed) = serve_rounds(rt, alloc, &shared, first, door, &OpenGate, rounds);
    let seen = seat.seen();
    shared.leave(seat);
    (handed, seen)
}

fn show_handed<R: Print>(rt: &R, handed: u64, seen: u64) {
    let _ = println!(rt; "handed {handed} seen {seen}");
}

/// Serves so many connections of a door that has one.
pub(crate) fn rounds_row<R: Threads + Wait + Sync + Print>(
    rt: &R,
    alloc: Global,
    table: &mut Table,
    count: &str,
) {
    let mut door = door_of(alloc, take(alloc, &mut table.input));
    match seats_of(rt, alloc, table) {
        Some(seated) => {
            let (handed, seen) = serve_door(rt, alloc, seated, &mut door, number_of(count));
            show_handed(rt, handed, seen);
        }
        None => say(rt, "no store"),
    }
}
