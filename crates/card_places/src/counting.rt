//! Counts the cards of a street for each owner, in one walk over the places.
ghost use Rattle.std.specs.Prelude.{◌≡◌, ◌≤◌, length};
ghost use Rattle.card_places.specs.Counted as counted;
ghost use Rattle.card_places.specs.Counted.{AreCounts, count_of};
ghost use Rattle.card_places.specs.Placed.{placed};
ghost use Rattle.chip_ledger.specs.SeatsSaid.{seat_said};

use crate::dealt_cards::DealtCards;
use chip_ledger::Seat;

/// How many cards of one street each owner was dealt: the board's count at index 0, then each
/// seat's.
#[derive(Clone, Copy)]
pub struct OwnerCounts {
    pub numbers: [u8; 11],
    pub ghost full: { length numbers ≡ 11 },
}

impl OwnerCounts {
    /// Counts the cards of a street.
    pub fn on(places: &DealtCards, street: u8) -> Self
        ensures { AreCounts result.numbers street (placed places.now) }
    {
        let mut numbers = [0; 11];
        for card in places.as_slice() {
            if card.street == street {
                numbers[to_index(card.owner)] += 1;
            }
        }
        OwnerCounts { numbers }
    }

    /// The number of cards that the owner was dealt.
    pub fn of(&self, owner: Option<Seat>) -> u8
        ensures { result ≡ count_of self.now.numbers (seat_said owner) }
    {
        self.numbers[to_index(owner)]
    }
}

// The index of the owner's count.
fn to_index(owner: Option<Seat>) -> usize
    ensures index { result ≡ counted.owner_index (seat_said owner) }
    ensures most { result ≤ 10 }
{
    match owner {
        Some(seat) => seat.number as usize,
        None => 0,
    }
}
