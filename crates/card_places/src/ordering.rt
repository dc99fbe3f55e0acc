//! The places as a trace has them: by street, then by owner, then in the order of dealing.
ghost use Rattle.std.specs.Prelude.{◌≡◌, ◌+◌, ◌<◌, ◌≤◌, Some, None, length, map, slice_get, IfOk, IfErr};
ghost use Rattle.play_event.specs.Places.{Place, group_of};
ghost use Rattle.card_places.specs.Ordered.{IsPlaceOf, on_seats, on_street, on_streets, ordered};
ghost use Rattle.card_places.specs.Placed.{placed};
ghost use Rattle.card_places.specs.Plain.{place_of};
ghost use Rattle.chip_ledger.specs.SeatsSaid.{seat_said};

use crate::card_state::CardState;
use crate::dealt_card::DealtCard;
use card_set::Slot;
use chip_ledger::Seat;
use play_event::Place;

impl CardState {
    /// The place at this index, from 0, in the order of the trace.
    pub fn place(&self, index: u8) -> Place
        requires { index < self.now.places.count }
        ensures { IsPlaceOf result (slice_get
            (ordered self.now.table.code self.now.seats (placed self.now.places)) index) }
    {
        match self.in_streets(1, self.table.streets(), index) {
            Ok(card) => Place {
                owner: card.owner,
                street: card.street,
                slot: card.slot,
                gone: card.discarded,
            },
            // An index below the count is never past all cards.
            Err(_) => Place {
                owner: None,
                street: 0,
                slot: Slot::Unknown,
                gone: 0,
            },
        }
    }

    // The card at an index of `count` streets, from this one on, or how far the index is past them.
    fn in_streets(&self, first: u8, count: u8, index: u8) -> Result<DealtCard, u8>
        requires { first + count ≤ 6 }
        ensures found { IfOk result (λ card. slice_get
            (on_streets self.now.seats (placed self.now.places) first count) index
            ≡ Some (place_of card)) }
        ensures past { IfErr result (λ left. index
            ≡ left + length (on_streets self.now.seats (placed self.now.places) first count)) }
    {
        if count == 0 {
            return Err(index);
        }
        match self.in_street(first, index) {
            Ok(card) => Ok(card),
            Err(left) => self.in_streets(first + 1, count - 1, left),
        }
    }

    // The card at an index of one street, first those of the seats and then the board's, or how far
    // the index is past them.
    fn in_street(&self, street: u8, index: u8) -> Result<DealtCard, u8>
        ensures found { IfOk result (λ card. slice_get
            (on_street self.now.seats (placed self.now.places) street) index
            ≡ Some (place_of card)) }
        ensures past { IfErr result (λ left.
            index ≡ left + length (on_street self.now.seats (placed self.now.places) street)) }
    {
        match self.in_seats(street, 1, self.seats, index) {
            Ok(card) => Ok(card),
            Err(left) => in_group(self.places.as_slice(), None, street, left),
        }
    }

    // The card at an index of those that `count` seats have of a street, from this seat on, or how
    // far the index is past them.
    fn in_seats(&self, street: u8, first: u8, count: u8, index: u8) -> Result<DealtCard, u8>
        requires from_one { 1 ≤ first }
        requires within { first + count ≤ 11 }
        ensures found { IfOk result (λ card. slice_get
            (on_seats (placed self.now.places) street first count) index ≡ Some (place_of card)) }
        ensures past { IfErr result (λ left.
            index ≡ left + length (on_seats (placed self.now.places) street first count)) }
    {
        if count == 0 {
            return Err(index);
        }
        match in_group(
            self.places.as_slice(),
            Some(Seat { number: first }),
            street,
            index,
        ) {
            Ok(card) => Ok(card),
            Err(left) => self.in_seats(street, first + 1, count - 1, left),
        }
    }
}

// The card at an index of those of the street and the owner, or how far the index is past them.
fn in_group(rows: &[DealtCard], owner: Option<Seat>, street: u8, index: u8) -> Result<DealtCard, u8>
    ensures found { IfOk result (λ card.
        slice_get (group_of (map place_of rows.now) street (seat_said owner)) index
        ≡ Some (place_of card)) }
    ensures past { IfErr result (λ left.
        index ≡ left + length (group_of (map place_of rows.now) street (seat_said owner))) }
{
    match rows {
        [] => Err(index),
        [card, rest @ ..] => {
            if !card.in_group(owner, street) {
                in_group(rest, owner, street, index)
            } else if index == 0 {
                Ok(*card)
            } else {
                in_group(rest, owner, street, index - 1)
            }
        }
    }
}
