//! The rows of two callers at once, of whom the first is held at a place.
ghost use Rattle.std.specs.Prelude.{◌≡◌, Some};
ghost use Rattle.std.specs.Thread.{IsSync};
ghost use Rattle.cov_workers.specs.Sound.{IsSound};
ghost use Rattle.cov_workers.specs.Stores.{opening_of};
ghost use Rattle.cov_workers.specs.Shares.{HasSeat};
ghost use Rattle.cov_workers.specs.Seated.{IsHere};

use crate::sessions::Table;
use crate::sessions::seats::{PIECE, Seated, Served, seats_of, show_served};
use crate::words::{count_of, say, show, take};
use cov_base::{Gate, OpenGate, SureLink};
use cov_workers::{Core, Shared, serve_connection};
use std::alloc::Global;
use std::hint::spin_loop;
use std::io::Print;
use std::sync::Wait;
use std::sync::atomic::{AtomicBool, Ordering};
use std::thread::{Threads, for_each_mut};
use turn_lock::Seat;

/// How often a caller looks for a sign before it goes on without it.
const LOOKS: u32 = 1_000_000_000;

/// How far two callers have come.
#[derive(Drop)]
struct Signs {
    /// The first stands at its place.
    stands: AtomicBool,
    /// The second has been served.
    served: AtomicBool,
    /// The first went on before that.
    late: AtomicBool,
}

/// Whether the sign came in time.
fn comes(sign: &AtomicBool) -> bool {
    for _ in 0..LOOKS {
        if sign.load(Ordering::SeqCst) {
            return true;
        }
        spin_loop();
    }
    false
}

/// A gate that holds the first caller at a place until the second has been served.
#[derive(Drop)]
struct HoldAt<'a> {
    place: u32,
    signs: &'a Signs,
}

impl Gate for HoldAt<'_> {
    fn pass(&self, place: u32) {
        if place == self.place {
            self.signs.stands.store(true, Ordering::SeqCst);
            if !comes(&self.signs.served) {
                self.signs.late.store(true, Ordering::SeqCst);
            }
        }
    }
}

/// A caller who asks this, as long as it hasn't been served.
struct Caller<C: Core> {
    seat: Option<Seat<C>>,
    asked: Vec<u8>,
    served: Option<Served>,
}

/// Serves a caller, who then gives its seat up.
fn serve_caller<C: Core, R: Threads + Wait + Sync, G: Gate>(
    rt: &R,
    alloc: Global,
    shared: &Shared<C>,
    caller: &mut Caller<C>,
    gate: &G,
)
    requires { IsHere C.base C.sound shared.now caller.old.seat }
{
    let Some(seat) = caller.seat.take() else {
        return;
    };
    let mut link = SureLink::new(alloc, take(alloc, &mut caller.asked), PIECE);
    let (seat, ended) = serve_connection(rt, alloc, shared, seat, &mut link, gate);
    shared.leave(seat);
    caller.served = Some(Served { link, ended });
}

/// Serves the first caller, who is held at a place, or the second, who comes once the first stands there.
fn work<C: Core, R: Threads + Wait + Sync>(
    rt: &R,
    alloc: Global,
    shared: &Shared<C>,
    signs: &Signs,
    place: u32,
    at: usize,
    caller: &mut Caller<C>,
)
    requires { IsHere C.base C.sound shared.now caller.old.seat }
{
    if at == 0 {
        let gate = HoldAt { place, signs };
        serve_caller(rt, alloc, shared, caller, &gate);
    } else if comes(&signs.stands) {
        serve_caller(rt, alloc, shared, caller, &OpenGate);
        signs.served.store(true, Ordering::SeqCst);
    }
}

/// Gives the caller's seat up where it still lies here.
fn give_up<C: Core>(shared: &Shared<C>, caller: Caller<C>) -> Option<Served> {
    let Caller {
        seat,
        asked: _,
        served,
    } = caller;
    if let Some(seat) = seat {
        shared.leave(seat);
    }
    served
}

/// What both callers were answered, and whether the first was held until the second had been served.
#[derive(Drop)]
struct Both {
    first: Option<Served>,
    second: Option<Served>,
    held: bool,
}

/// Serves two callers in two threads, the first of whom is held at a place until the second has been served.
fn serve_held<C: Core + Send, R: Threads + Wait + Sync>(
    rt: &R,
    alloc: Global,
    shared: &Shared<C>,
    place: u32,
    first: Caller<C>,
    second: Caller<C>,
) -> Both
    requires first { IsHere C.base C.sound shared.now first.seat }
    requires second { IsHere C.base C.sound shared.now second.seat }
{
    let signs = Signs {
        stands: AtomicBool::new(false),
        served: AtomicBool::new(false),
        late: AtomicBool::new(false),
    };
    let mut callers = [first, second];
    for_each_mut(
        rt,
        &mut callers,
        2,
        &|at, caller: &mut Caller<C>|
            requires { IsSync R.row × IsHere C.base C.sound shared.now caller.old.seat }
        { work(rt, alloc, shared, &signs, place, at, caller) },
    );
    let [first, second] = callers;
    let held = signs.stands.load(Ordering::SeqCst) && !signs.late.load(Ordering::SeqCst);
    Both {
        first: give_up(shared, first),
        second: give_up(shared, second),
        held,
    }
}

/// A caller at this seat, who asks this.
fn caller_at<C: Core>(seat: Seat<C>, asked: Vec<u8>) -> Caller<C>
    ensures { result.seat ≡ Some seat }
{
    Caller {
        seat: Some(seat),
        asked,
        served: None,
    }
}

/// Serves both callers of a store.
fn serve_both<R: Threads + Wait + Sync>(
    rt: &R,
    alloc: Global,
    seated: Seated,
    place: u32,
    table: &mut Table,
) -> Both
    requires first { HasSeat opening_of IsSound seated.shared seated.first }
    requires second { HasSeat opening_of IsSound seated.shared seated.second }
{
    let Seated {
        shared,
        first,
        second,
    } = seated;
    let first = caller_at(first, take(alloc, &mut table.first));
    let second = caller_at(second, take(alloc, &mut table.input));
    serve_held(rt, alloc, &shared, place, first, second)
}

/// Shows what a caller was answered, if it was served.
fn show_if_served<R: Print>(rt: &R, alloc: Global, who: &str, served: &Option<Served>) {
    match served {
        Some(served) => show_served(rt, alloc, who, served),
        None => show(rt, who, "not served"),
    }
}

/// Shows what both callers were answered, and whether the first was held.
fn show_both<R: Print>(rt: &R, alloc: Global, both: &Both) {
    show_if_served(rt, alloc, "first", &both.first);
    show_if_served(rt, alloc, "second", &both.second);
    say(rt, if both.held { "held" } else { "late" });
}

/// Serves both callers at once, the first of whom is held at a place, and shows what each was answered.
pub(crate) fn hold_row<R: Threads + Wait + Sync + Print>(
    rt: &R,
    alloc: Global,
    table: &mut Table,
    place: &str,
) {
    match seats_of(rt, alloc, table) {
        Some(seated) => {
            let both = serve_both(rt, alloc, seated, count_of(place), table);
            show_both(rt, alloc, &both);
        }
        None => say(rt, "no store"),
    }
}
