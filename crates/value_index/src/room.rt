//! How much room the rows of an index would take.
ghost use Rattle.std.specs.Prelude.{◌≡◌, ◌↔◌, ◌<◌, ◌≤◌, ◌-◌, length, slice_index, IsTrue, SomeIff};
ghost use Rattle.std.specs.List.{filter};
ghost use Rattle.value_index.specs.Found.{in_span};
ghost use Rattle.value_index.specs.Segments.{Ascends};
ghost use Rattle.value_index.specs.Sizes.{places_of, rows_size, most_places};

use crate::build::first_from;
use crate::segment::segment;
use crate::sets::{Set, Span};

/// The most places that the rows of so many cuts may have.
pub(crate) fn most_places_of(cuts: &[u64]) -> u128
    ensures { result ≡ most_places (length cuts.now) }
{
    4 * cuts.len() as u128 + 65_536
}

// How many cuts are in a span.
fn cuts_in(cuts: &[u64], span: &Span) -> usize
    requires ascends { Ascends cuts.now }
    requires some { 0 < length cuts.now }
    requires zero { slice_index cuts.now 0 ≡ 0 }
    ensures { result ≡ length (filter (λ cut. in_span cut span.now) cuts.now) }
{
    let from = first_from(cuts, span.low);
    let to = segment(cuts, span.high) + 1;
    to.saturating_sub(from)
}

// What is left of the room beside the places of a set; None where it is too little.
fn room_beside(cuts: &[u64], spans: &[Span], room: u128) -> Option<u128>
    requires ascends { Ascends cuts.now }
    requires some { 0 < length cuts.now }
    requires zero { slice_index cuts.now 0 ≡ 0 }
    ensures { SomeIff result (places_of cuts.now spans.now ≤ room) (room - places_of cuts.now spans.now) }
{
    let mut left = room;
    for span in spans {
        let Some(rest) = left.checked_sub(cuts_in(cuts, span) as u128) else {
            return None;
        };
        left = rest;
    }
    Some(left)
}

/// Whether the rows of the sets have no more places than that.
pub(crate) fn has_room(cuts: &[u64], sets: &[Set], room: u128) -> bool
    requires ascends { Ascends cuts.now }
    requires some { 0 < length cuts.now }
    requires zero { slice_index cuts.now 0 ≡ 0 }
    ensures { IsTrue result ↔ (rows_size cuts.now sets.now ≤ room) }
{
    let mut left = room;
    for set in sets {
        let Some(rest) = room_beside(cuts, set.as_slice(), left) else {
            return false;
        };
        left = rest;
    }
    true
}
