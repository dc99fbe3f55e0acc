//! A fold takes the cards of its seat off the table, and no others.
ghost use Rattle.std.specs.Prelude.{◌≡◌};
ghost use Rattle.play_event.specs.Places as plain;
ghost use Rattle.card_places.specs.Folded.{IsFolded};
ghost use Rattle.card_places.specs.Placed.{placed};
ghost use Rattle.card_places.specs.Plain.{place_of};

use crate::card_state::CardState;
use crate::dealt_card::DealtCard;
use crate::dealt_cards::DealtCards;
use chip_ledger::Seat;

impl CardState {
    /// Folds the cards of a seat.
    pub fn fold(&mut self, seat: Seat)
        ensures { IsFolded self.old self.new seat.number }
    {
        take_away(&mut self.places, seat);
    }
}

// Takes away what the seat held: gone after the cards dealt so far.
fn take_away(places: &mut DealtCards, seat: Seat)
    ensures { placed places.new ≡ plain.after_fold seat.number (placed places.old) }
{
    for index in 0..places.count as usize {
        places.rows[index] = folded(places.rows[index], seat, places.count);
    }
}

// The card after the seat folded, when `count` cards were dealt.
fn folded(card: DealtCard, seat: Seat, count: u8) -> DealtCard
    ensures { place_of result ≡ plain.folded_place seat.number count (place_of card) }
{
    if card.held_by(Some(seat)) {
        DealtCard {
            gone_after: Some(count),
            ..card
        }
    } else {
        card
    }
}
