//! The cards of a hand; never more of them than a legal hand can have.
ghost use Rattle.std.specs.Prelude.{◌≡◌, ◌≤◌};
ghost use Rattle.play_event.specs.Games.{game_of};
ghost use Rattle.card_places.specs.Placed.{placed};
ghost use Rattle.card_places.specs.Room.{IsWithin, AreNamedWithin, AreHeldWithin};

use crate::deal_table::DealTable;
use crate::dealt_cards::DealtCards;
use crate::draws::Draws;
use chip_ledger::LiveRow;

/// The cards of a hand.
#[derive(Clone, Copy, Debug, PartialEq, Eq)]
pub struct CardState {
    pub table: DealTable,
    pub seats: u8,
    pub places: DealtCards,
    pub draws: Draws,
    /// Which seats showed.
    pub shown: LiveRow,
    /// Which seats mucked.
    pub mucked: LiveRow,
    pub ghost shown_seats: { shown.seats ≡ seats },
    pub ghost mucked_seats: { mucked.seats ≡ seats },
    pub ghost few: { seats ≤ (game_of table.code).seats },
    // No owner has more cards of a street than the street deals; no seat discards more cards than a
    // hand has, and none holds more.
    pub ghost within: { IsWithin table.code seats (placed places) },
    pub ghost named: { AreNamedWithin table.code draws },
    pub ghost held: { AreHeldWithin table.code seats draws (placed places) },
}
