//! The calls of the lock.
ghost use Rattle.std.specs.Prelude.{◌≡◌, ◌+◌, ◌-◌, ◌%◌, ◌^◌, ◌<◌, ◌≤◌, [], ◌∷◌, ◌++◌, drop, length, Some, None, IfOk};
ghost use mathlib.Core.List.{IsPrefix};
ghost use Rattle.turn_lock.specs.History.{longer, NoneBy, AtMostOneMore};
ghost use Rattle.turn_lock.specs.Views.{taken_of, ticket_of, view};
ghost use Rattle.turn_lock.specs.Steps.{Waits, IsServed};
ghost use Rattle.turn_lock.specs.declared.board.Stage.TheVariants.{Done};
ghost use Rattle.turn_lock.specs.Limits.{most_seats};
ghost use Rattle.turn_lock.specs.Seats.{home, IsSeatOf, IsSame, IsTurnOf, IsTurnBy};
ghost use Rattle.turn_lock.specs.Seats.{number_of, free, left, opened, seen, own, taken, turn_number, turn_own};

use crate::board::{About, Board, Place};
use crate::plays::{Draw, DrawNumber, Fix, Learn, Look, Merge, News, Note, Pass, Share};
use crate::types::{Seat, Turn, TurnLock};
use atomic_table::Table;
use cov_base::{Book, Memory};
use std::alloc::Global;
use std::hint::spin_loop;
use std::marker::Brand;
use std::snapshot::Snapshot;
use std::sync::Wait;
use std::sync::atomic::{AtomicU64, Ordering};

// The words of the table.
const LENGTH: usize = 0;

const TICKET: usize = 1;

const SERVING: usize = 2;

const NUMBER: usize = 3;

// How often a waiting thread looks before it sleeps. More looks cost more where threads outnumber processors.
const LOOKS: u32 = 100;

#[tactic(auto, unfolding(crate::specs::Seats::home, crate::specs::Seats::number_of, crate::specs::Seats::free, crate::specs::Seats::left, crate::specs::Seats::opened, crate::specs::Seats::seen, crate::specs::Seats::IsOf, crate::specs::Seats::turn_number, crate::specs::Seats::turn_free, crate::specs::Seats::turn_left, crate::specs::Seats::turn_opened, crate::specs::Seats::taken, crate::specs::Seats::IsTurnOf))]
impl<T: Book> TurnLock<T> {
    /// A lock for at most so many seats at a time, 1 to 4,096, and its first seat, of number 0. The entries that the
    /// value has now belong to no seat, whatever their numbers. A refusal drops the value.
    ///
    /// # Errors
    /// `Memory` for want of memory.
    pub fn open(alloc: Global, value: T, seats: u32) -> Result<(TurnLock<T>, Seat<T>), Memory>
    where
        T: Drop,
        requires { (1 ≤ seats) × (seats ≤ most_seats) }
        ensures seat { IfOk result (λ t. IsSeatOf T.base T.sound t.0 t.1) }
        ensures base { IfOk result (λ t. home T.base t.0 ≡ T.base value) }
        ensures seen { IfOk result (λ t. seen t.1 ≡ T.entries value) }
        ensures number { IfOk result (λ t. number_of t.1 ≡ 0) }
        ensures opened { IfOk result (λ t. opened t.1 ≡ length (T.entries value)) }
        ensures free { IfOk result (λ t. free t.1 ≡ seats - 1) }
        ensures left { IfOk result (λ t. left t.1 ≡ 2 ^ 32 - 1) }
        ensures own { IfOk result (λ t. own T.number t.1 ≡ []) }
    {
        let about = About {
            value: Snapshot::of(&value),
            seats,
        };
        let seen = value.len();
        let mut slots = Vec::new(alloc);
        let value = Box::new(alloc, value)?;
        slots.push(Some(value))?;
        let (table, place): (Board<T, T::Base, T::Entry>, Place<T, T::Base, T::Entry>) = Table::new(
            alloc,
            &[seen, 0, 0, 1],
            slots,
            &about,
        ).map_err(|_| Memory)?;
        let seat = Seat {
            place,
            number: 0,
            seen,
            free: seats - 1,
            left: u32::MAX,
        };
        let lock = TurnLock {
            table,
            sleepers: AtomicU64::new(0),
        };
        Ok((lock, seat))
    }

    /// Waits for the seat's turn, and takes the value. Its entries begin with all that the seat has seen, and those
    /// after that aren't the seat's own.
    pub fn take<R: Wait>(&self, rt: &R, seat: Seat<T>) -> (Turn<T>, Box<T>)
        requires { IsSeatOf T.base T.sound self.now seat }
        ensures turn { IsTurnOf T.base self.now result.0 }
        ensures by { IsTurnBy seat result.0 }
        ensures taken { taken result.0 ≡ T.entries result.1.value }
        ensures base { T.base result.1.value ≡ home T.base self.now }
        ensures begins { IsPrefix (seen seat) (T.entries result.1.value) }
        ensures others { NoneBy T.number (number_of seat)
            (drop (length (seen seat)) (T.entries result.1.value)) }
        ensures own { turn_own T.number result.0 ≡ own T.number seat }
    {
        let Seat {
            mut place,
            number,
            seen: _,
            free,
            left,
        } = seat;
        let ticket = self.table.shared.fetch_add::<Draw>(&mut place, TICKET, 1);
        let value = self.wait(rt, &mut place, ticket);
        let taken = value.len();
        let turn = Turn {
            place,
            taken,
            number,
            free,
            left,
        };
        (turn, value)
    }

    // Waits until the ticket is served, and takes the value out of the slot.
    fn wait<R: Wait>(&self, rt: &R, place: &mut Place<T, T::Base, T::Entry>, ticket: u64) -> Box<T>
        requires own { place.old.table_id ≡ self.now.table.shared.table_id }
        requires base { place.old.me.0.base ≡ Some (home T.base self.now) }
        requires drawn { Waits ticket place.old.me }
        ensures own { (place.new.table_id ≡ place.old.table_id) × (place.new.me.0.base ≡ place.old.me.0.base) × (place.new.me.0.free ≡ place.old.me.0.free) × (place.new.me.0.who ≡ place.old.me.0.who) }
        ensures served { IsServed place.new.me × (taken_of place.new.me.0.stage ≡ T.entries result.value) }
        ensures base { Some (T.base result.value) ≡ place.old.me.0.base }
        ensures begins { IsPrefix place.old.me.0.seen (T.entries result.value) }
        ensures others { NoneBy T.number place.old.me.0.who.number (drop (length place.old.me.0.seen) (T.entries result.value)) }
    {
        let shared = &self.table.shared;
        let mut looks = 0;
        for _ in rt.forever() {
            let found = shared.load::<Look>(place, SERVING);
            if found == ticket {
                let Some(value) = shared.exchange(place, 0, None) else {
                    unreachable!()
                };
                return value;
            }
            if looks < LOOKS {
                looks += 1;
                spin_loop();
            } else {
                self.sleepers.fetch_add(1, Ordering::SeqCst);
                shared.park(rt, SERVING, (found % (1 << 32)) as u32);
                self.sleepers.fetch_sub(1, Ordering::SeqCst);
            }
        }
        unreachable!()
    }

    // Makes the entries of the value the history, which has so many more. The value serves the contract alone.
    fn fix<N: News<T::Entry>>(&self, place: &mut Place<T, T::Base, T::Entry>, value: &T, more: u64)
        requires own { (place.old.table_id ≡ self.now.table.shared.table_id) × (place.old.me.0.base ≡ Some (home T.base self.now)) }
        requires served { IsServed place.old.me }
        requires base { T.base value.now ≡ home T.base self.now }
        requires news { (N.news ≡ T.entries value.now) × AtMostOneMore T.number place.old.me.0.who.number (taken_of place.old.me.0.stage) N.news × (length N.news ≡ length (taken_of place.old.me.0.stage) + more) }
        ensures own { place.new.table_id ≡ place.old.table_id }
        ensures done { place.new.me ≡ (view (Done (ticket_of place.old.me.0.stage)) place.old.me.0.free place.old.me.0.base (T.entries value.now) place.old.me.0.told place.old.me.0.who, (0, None) ∷ []) }
    {
        let _ = value;
        self.table.shared.fetch_add::<Fix<N>>(place, LENGTH, more);
    }

    /// Gives the value back, with the entries that were taken or with one more, which has the seat's number. The seat
    /// has then seen them all.
    pub fn give(&self, turn: Turn<T>, value: Box<T>) -> Seat<T>
        requires turn { IsTurnOf T.base self.now turn }
        requires base { T.base value.value ≡ home T.base self.now }
        requires entries { AtMostOneMore T.number (turn_number turn) (taken turn)
            (T.entries value.value) }
        ensures seat { IsSeatOf T.base T.sound self.now result }
        ensures by { IsTurnBy result turn }
        ensures seen { seen result ≡ T.entries value.value }
        ensures same { T.entries value.value ≡ taken turn
            → own T.number result ≡ turn_own T.number turn }
        ensures more { (e : T.Entry) → T.entries value.value ≡ taken turn ++ e ∷ []
            → own T.number result ≡ turn_own T.number turn ++ (length (taken turn), e) ∷ [] }
    {
        let Turn {
            mut place,
            taken,
            number,
            free,
            left,
        } = turn;
        let seen = value.len();
        self.fix::<Brand>(&mut place, &value, seen - taken);
        let shared = &self.table.shared;
        let old = shared.exchange(&mut place, 0, Some(value));
        let None = old else { unreachable!() };
        shared.fetch_add::<Pass>(&mut place, SERVING, 1);
        if self.sleepers.load(Ordering::SeqCst) != 0 {
            shared.wake_all(SERVING);
        }
        Seat {
            place,
            number,
            seen,
            free,
            left,
        }
    }

    /// Makes a new seat, which has seen what this one has seen. Its number is 2^32 less the numbers that were left,
    /// and no entry made since `open` has it. The new seat has no free seat and no number left.
    pub fn split(&self, seat: &mut Seat<T>) -> Seat<T>
        requires seat { IsSeatOf T.base T.sound self.now seat.old }
        requires room { (1 ≤ free seat.old) × (1 ≤ left seat.old) }
        ensures seat { IsSeatOf T.base T.sound self.now seat.new }
        ensures number { number_of seat.new ≡ number_of seat.old }
        ensures seen { seen seat.new ≡ seen seat.old }
        ensures opened { opened seat.new ≡ opened seat.old }
        ensures own { own T.number seat.new ≡ own T.number seat.old }
        ensures counts { (free seat.new ≡ free seat.old - 1) × (left seat.new ≡ left seat.old - 1) }

        ensures new { IsSeatOf T.base T.sound self.now result }
        ensures new_number { number_of result ≡ 2 ^ 32 - left seat.old }
        ensures new_seen { seen result ≡ seen seat.old }
        ensures new_opened { opened result ≡ opened seat.old }
        ensures new_own { own T.number result ≡ [] }
        ensures new_counts { (free result ≡ 0) × (left result ≡ 0) }
    {
        let shared = &self.table.shared;
        let number = shared.fetch_add::<DrawNumber>(&mut seat.place, NUMBER, 1);
        let place = shared.split_seat::<Share>(&mut seat.place);
        seat.free -= 1;
        seat.left -= 1;
        Seat {
            place,
            number: number as u32,
            seen: seat.seen,
            free: 0,
            left: 0,
        }
    }

    // Tells the seat a of what the seat b has seen.
    fn tell(&self, a: &mut Seat<T>, b: &mut Seat<T>)
        requires a { IsSeatOf T.base T.sound self.now a.old }
        requires b { IsSeatOf T.base T.sound self.now b.old }
        ensures a { IsSeatOf T.base T.sound self.now a.new × IsSame a.old a.new }
        ensures b { IsSeatOf T.base T.sound self.now b.new × IsSame b.old b.new × (seen b.new ≡ seen b.old) }
        ensures seen { (seen a.new ≡ longer (seen a.old) (seen b.old)) × IsPrefix (seen a.old) (seen a.new) × IsPrefix (seen b.old) (seen a.new) }
        ensures own { own T.number a.new ≡ own T.number a.old }
    {
        let shared = &self.table.shared;
        let note = shared.split_seat::<Note>(&mut b.place);
        shared.join_seat::<Note>(&mut a.place, note);
        shared.load::<Learn>(&mut a.place, LENGTH);
        a.seen = a.seen.max(b.seen);
    }

    /// Both seats have then seen one history, which begins with what each had seen. It waits for nobody.
    pub fn meet(&self, a: &mut Seat<T>, b: &mut Seat<T>)
        requires a { IsSeatOf T.base T.sound self.now a.old }
        requires b { IsSeatOf T.base T.sound self.now b.old }
        ensures a { IsSeatOf T.base T.sound self.now a.new × IsSame a.old a.new }
        ensures b { IsSeatOf T.base T.sound self.now b.new × IsSame b.old b.new }
        ensures seen { seen a.new ≡ seen b.new }
        ensures begins { IsPrefix (seen a.old) (seen a.new) × IsPrefix (seen b.old) (seen a.new) }
        ensures own_a { own T.number a.new ≡ own T.number a.old }
        ensures own_b { own T.number b.new ≡ own T.number b.old }
    {
        self.tell(a, b);
        self.tell(b, a);
    }

    /// Gives a seat up. The other has then seen the longer of both histories, and has the seat's free seats, the seat
    /// itself and its numbers left in addition to its own.
    pub fn end(&self, seat: Seat<T>, into: &mut Seat<T>)
        requires seat { IsSeatOf T.base T.sound self.now seat }
        requires into { IsSeatOf T.base T.sound self.now into.old }
        ensures into { IsSeatOf T.base T.sound self.now into.new }
        ensures number { number_of into.new ≡ number_of into.old }
        ensures opened { opened into.new ≡ opened into.old }
        ensures own { own T.number into.new ≡ own T.number into.old }
        ensures free { free into.new ≡ free into.old + free seat + 1 }
        ensures left { left into.new ≡ left into.old + left seat }
        ensures seen { seen into.new ≡ longer (seen into.old) (seen seat) }
        ensures begins { IsPrefix (seen into.old) (seen into.new)
            × IsPrefix (seen seat) (seen into.new) }
    {
        let Seat {
            place,
            number: _,
            seen,
            free,
            left,
        } = seat;
        let shared = &self.table.shared;
        shared.join_seat::<Merge>(&mut into.place, place);
        shared.load::<Learn>(&mut into.place, LENGTH);
        into.seen = into.seen.max(seen);
        into.free += free + 1;
        into.left += left;
    }

    /// Gives a seat up for good, with its free seats and the numbers that it had left. It makes no step.
    pub fn leave(&self, seat: Seat<T>) {
        let Seat {
            place: _,
            number: _,
            seen: _,
            free: _,
            left: _,
        } = seat;
    }
}
