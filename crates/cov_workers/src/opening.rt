//! A store behind a lock.
ghost use Rattle.std.specs.Prelude.{◌≡◌, ◌-◌, ◌^◌, ◌≤◌, [], IfOk};
ghost use Rattle.std.specs.Arc.{arc_value};
ghost use Rattle.turn_lock.specs.Limits.{most_seats};
ghost use Rattle.turn_lock.specs.Seats.{number_of, free, left, opened, seen, own};
ghost use Rattle.merge_store.specs.Sound.{IsSound};
ghost use Rattle.merge_store.specs.Stores.{opening_of as store_opening};
ghost use Rattle.cov_server.specs.Shares.{opening_of, HasSeat};

use cov_base::Memory;
use cov_server::Shared;
use design_data::Design;
use merge_store::Store;
use std::alloc::Global;
use std::sync::Arc;
use turn_lock::Seat;

/// A fresh store of a design for at most so many seats at a time, 1 to 4,096, and its first seat, of number 0.
///
/// # Errors
/// `Memory` for want of memory.
pub fn open(
    alloc: Global,
    design: Arc<Design>,
    seats: u32,
) -> Result<(Shared<Store>, Seat<Store>), Memory>
    requires { (1 ≤ seats) × (seats ≤ most_seats) }
    ensures seat { IfOk result (λ t. HasSeat store_opening IsSound t.0 t.1) }
    ensures opening { IfOk result (λ t. opening_of store_opening t.0 ≡ arc_value design) }
    ensures seen { IfOk result (λ t. seen t.1 ≡ []) }
    ensures number { IfOk result (λ t. number_of t.1 ≡ 0) }
    ensures opened { IfOk result (λ t. opened t.1 ≡ 0) }
    ensures free { IfOk result (λ t. free t.1 ≡ seats - 1) }
    ensures left { IfOk result (λ t. left t.1 ≡ 2 ^ 32 - 1) }
    ensures own { IfOk result (λ t. own (λ e. e.caller) t.1 ≡ []) }
{
    let store = Store::new(alloc, design)?;
    Shared::over(alloc, store, seats)
}
