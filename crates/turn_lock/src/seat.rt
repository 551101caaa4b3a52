//! What a seat shows.
ghost use Rattle.std.specs.Prelude.{◌≡◌, ◌≤◌, length};
ghost use Rattle.turn_lock.specs.Seats.{number_of, seen, opened, free, left};

use crate::types::Seat;
use cov_base::Book;

#[tactic(auto, unfolding(crate::specs::Seats::number_of, crate::specs::Seats::free, crate::specs::Seats::left, crate::specs::Seats::opened, crate::specs::Seats::seen))]
impl<T: Book> Seat<T> {
    /// The number that its entries have.
    pub fn number(&self) -> u32
        ensures { result ≡ number_of self.now }
    {
        self.number
    }

    /// The length of the history that it has seen, at least that at the time when the lock was opened.
    pub fn seen(&self) -> u64
        ensures length { result ≡ length (seen self.now) }
        ensures past { opened self.now ≤ result }
    {
        self.seen
    }

    /// How many further seats it may make now. Fewer than a lock may have.
    pub fn free(&self) -> u32
        ensures { result ≡ free self.now }
    {
        self.free
    }

    /// How many numbers it may still draw for them.
    pub fn left(&self) -> u32
        ensures { result ≡ left self.now }
    {
        self.left
    }
}
