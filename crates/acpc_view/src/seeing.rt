//! What a seat sees: its own cards, the boards of the rounds that have begun and, at the end, shown
//! cards.
ghost use Rattle.std.specs.Prelude.{◌≡◌, ◌==◌, ◌++◌, ◌∷◌, [], if◌then◌else◌, map, IfOk, OnOk};
ghost use Rattle.std.specs.List.{list_any};
ghost use Rattle.acpc_view.specs.View.{is_seen_by, sees_seat};
ghost use Rattle.acpc_view.specs.View as view;
ghost use Rattle.chip_ledger.specs.LiveRow.{flagged};
ghost use Rattle.hand_canon.specs.TraceRows.{core_said, place_said};
ghost use Rattle.play_event.specs.Played.{move_said};
ghost use Rattle.play_event.specs.Said.{seat_named};

use card_set::{Memory, TryPush};
use chip_ledger::{LiveRow, Seat};
use hand_canon::Trace;
use play_event::{Move, Place};
use std::alloc::Global;

/// The cards that a seat sees after the first `count` moves, each with its place.
pub fn find_seen_places(
    alloc: Global,
    trace: &Trace,
    viewer: Seat,
    count: usize,
) -> Result<Vec<Place>, Memory>
    ensures { IfOk result (λ seen. map place_said seen.items
        ≡ view.seen_places (core_said trace.now) viewer.number count) }
{
    let mut seen = Vec::new(alloc);
    for place in trace.places.as_slice() {
        let sees = is_seen(trace, viewer, count, *place);
        push_where(&mut seen, *place, sees)?;
    }
    Ok(seen)
}

// Appends a card if it is seen.
fn push_where(seen: &mut Vec<Place>, place: Place, sees: bool) -> Result<(), Memory>
    ensures { OnOk result (seen.new.items
        ≡ seen.old.items ++ (if sees then place ∷ [] else [])) }
{
    if sees {
        seen.try_push(place)?;
    }
    Ok(())
}

// The seat sees a card then.
fn is_seen(trace: &Trace, viewer: Seat, count: usize, place: Place) -> bool
    ensures { result ≡ is_seen_by (core_said trace.now) viewer.number count
        (seat_named place.owner) place.street }
{
    match place.owner {
        None => has_reached_street(trace.moves.as_slice(), count, place.street),
        Some(owner) => sees_seat_of(trace, viewer, count, owner),
    }
}

/// The round of a street has begun before the move at an index, or there is no such move.
pub fn has_reached_street(moves: &[Move], index: usize, street: u8) -> bool
    ensures { result ≡ view.has_begun (map move_said moves.now) index street }
{
    match moves.get(index) {
        Some(played) => street <= played.street,
        None => true,
    }
}

/// The seat sees the hole cards of an owner: its own and, after the last move, those that are
/// shown.
pub fn sees_seat_of(trace: &Trace, viewer: Seat, count: usize, owner: Seat) -> bool
    ensures { result ≡ sees_seat (core_said trace.now) viewer.number count owner.number }
{
    owner.number == viewer.number || (trace.moves.len() <= count && is_flagged(&trace.shown, owner))
}

// The seat is flagged.
fn is_flagged(row: &LiveRow, seat: Seat) -> bool
    ensures { result ≡ list_any (λ other. other == seat.number) (flagged row.now) }
{
    row.flags[seat.number as usize - 1]
}
