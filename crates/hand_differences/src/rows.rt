//! Compares single moves and dealt cards of two traces.
ghost use Rattle.std.specs.Prelude.{◌≡◌};
ghost use Rattle.play_event.specs.Said.{seat_named};
ghost use Rattle.play_event.specs.Places as places;
ghost use Rattle.hand_differences.specs.SameParts as same_parts;

use card_set::{Slot, index_in_deck};
use chip_ledger::Seat;
use play_event::{Act, Move, Place};

// Both are true, or both are false.
pub(crate) fn are_equal_bools(a: bool, b: bool) -> bool
    ensures { result ≡ same_parts.is_same_test a b }
{
    if a { b } else { !b }
}

// The moves are the same.
pub(crate) fn are_equal_moves(a: &Move, b: &Move) -> bool
    ensures { result ≡ same_parts.is_same_move a.now b.now }
{
    a.street == b.street
        && a.seat.number == b.seat.number
        && are_equal_acts(a.act, b.act)
        && a.from == b.from
        && a.to == b.to
        && a.price == b.price
        && are_equal_bools(a.closed, b.closed)
        && a.unit_to == b.unit_to
}

// The acts are the same.
fn are_equal_acts(a: Act, b: Act) -> bool
    ensures { result ≡ same_parts.is_same_act a b }
{
    match (a, b) {
        (Act::Fold, Act::Fold) => true,
        (Act::Call, Act::Call) => true,
        (Act::Raise, Act::Raise) => true,
        (Act::BringIn, Act::BringIn) => true,
        _ => false,
    }
}

// The dealt cards are the same, with owner and streets.
pub(crate) fn are_equal_places(a: &Place, b: &Place) -> bool
    ensures { result ≡ same_parts.is_same_place a.now b.now }
{
    are_equal_owners(a.owner, b.owner)
        && a.street == b.street
        && are_equal_slots(a.slot, b.slot)
        && a.gone == b.gone
}

// The owners are the same.
fn are_equal_owners(a: Option<Seat>, b: Option<Seat>) -> bool
    ensures { result ≡ places.is_same_owner (seat_named a) (seat_named b) }
{
    match (a, b) {
        (Some(seat), Some(other)) => seat.number == other.number,
        (None, None) => true,
        (Some(_), None) | (None, Some(_)) => false,
    }
}

// Both are the same known card, or both are unknown.
fn are_equal_slots(a: Slot, b: Slot) -> bool
    ensures { result ≡ same_parts.is_same_slot a b }
{
    match (a, b) {
        (Slot::Known(card), Slot::Known(other)) => index_in_deck(card) == index_in_deck(other),
        (Slot::Unknown, Slot::Unknown) => true,
        (Slot::Known(_), Slot::Unknown) | (Slot::Unknown, Slot::Known(_)) => false,
    }
}
