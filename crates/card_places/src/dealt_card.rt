//! A dealt card: its owner, when it was dealt, what is known of it, and whether it is gone.
ghost use Rattle.std.specs.Prelude.{◌≡◌, ℕ, Some};
ghost use Rattle.play_event.specs.Places as places;
ghost use Rattle.play_event.specs.Places.{is_in_group};
ghost use Rattle.play_event.specs.Held.{is_held};
ghost use Rattle.card_places.specs.Plain.{place_of};
ghost use Rattle.chip_ledger.specs.SeatsSaid.{seat_said};

use card_set::Slot;
use chip_ledger::Seat;

/// A dealt card.
#[derive(Clone, Copy, Debug, PartialEq, Eq)]
pub struct DealtCard {
    /// The seat, or `None` for the board.
    pub owner: Option<Seat>,
    /// From 1.
    pub street: u8,
    /// The number of cards of the street that its owner was dealt before it.
    pub index: u8,
    /// The number of cards that were dealt before it in all.
    pub number: u8,
    pub slot: Slot,
    /// Whether it was dealt after the deck ran out.
    pub past_deck: bool,
    /// The number of cards dealt when it was discarded or folded, if it was.
    pub gone_after: Option<u8>,
    /// The street of the draw that discarded it, or 0.
    pub discarded: u8,
}

impl DealtCard {
    /// The owner has the card, and it is not gone.
    pub fn held_by(&self, owner: Option<Seat>) -> bool
        ensures { result ≡ is_held (seat_said owner) (place_of self.now) }
    {
        is_same_owner(self.owner, owner) && self.gone_after.is_none()
    }

    /// The seat that has the card: none for a board card, or one that is gone.
    pub fn holder(&self) -> Option<Seat>
        ensures { (seat : ℕ) → places.is_held_by seat (place_of self.now)
            ≡ places.is_same_owner (seat_said result) (Some seat) }
    {
        if self.gone_after.is_none() {
            self.owner
        } else {
            None
        }
    }

    /// The card belongs to the street and the owner.
    pub fn in_group(&self, owner: Option<Seat>, street: u8) -> bool
        ensures { result ≡ is_in_group (seat_said owner) street (place_of self.now) }
    {
        is_same_owner(self.owner, owner) && self.street == street
    }
}

// Whether two owners are the same.
fn is_same_owner(a: Option<Seat>, b: Option<Seat>) -> bool
    ensures { result ≡ places.is_same_owner (seat_said a) (seat_said b) }
{
    match (a, b) {
        (Some(seat), Some(other)) => seat.number == other.number,
        (None, None) => true,
        (Some(_), None) | (None, Some(_)) => false,
    }
}
