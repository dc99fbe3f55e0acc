//! The deck, the streets and the deals of a game. After its last street a game deals nothing.
ghost use Rattle.std.specs.Prelude.{◌≡◌, ◌≤◌};
ghost use Rattle.play_event.specs.Games.{game_of, street_count};
ghost use Rattle.play_event.specs.Places as places;
ghost use Rattle.play_event.specs.Streets.{deck_of};
ghost use Rattle.play_event.specs.Taken as taken;
ghost use Rattle.variant_table.specs.Tables.{IsTableOf};
ghost use Rattle.card_places.specs.Plain.{place_of};
ghost use Rattle.card_places.specs.Marks.{IsStreetOf};

use crate::dealt_card::DealtCard;
use card_set::{Card, Rank, rank_index};
use play_event::Code;
use variant_table::{GameTable, Size, Street, table_of};

// A deck of this size starts with the sixes.
const SHORT_DECK: u8 = 36;

/// A game by its code, with its table.
#[derive(Clone, Copy, Debug, PartialEq, Eq)]
pub struct DealTable {
    pub code: Code,
    pub game: GameTable,
    pub ghost is_table: { IsTableOf (game_of code) game },
}

impl DealTable {
    /// The table of the game with this code.
    pub fn of(code: Code) -> Self
        ensures { result.code ≡ code }
    {
        DealTable {
            code,
            game: table_of(code),
        }
    }

    /// The number of cards of the deck.
    pub fn deck(&self) -> u8
        ensures { result ≡ deck_of self.now.code }
    {
        self.game.deck
    }

    /// The number of streets.
    pub fn streets(&self) -> u8
        ensures streets { result ≡ street_count self.now.code }
        ensures most { result ≤ 5 }
    {
        self.game.streets
    }

    /// Whether the deck has the card.
    pub fn in_deck(&self, card: Card) -> bool
        ensures { result ≡ taken.is_in_deck self.now.code card }
    {
        self.game.deck != SHORT_DECK || rank_index(card.rank) >= rank_index(Rank::Six)
    }

    /// Whether the card was dealt face up.
    pub fn is_up(&self, card: &DealtCard) -> bool
        ensures { result ≡ places.is_up self.now.code (place_of card.now) }
    {
        let street = self.street(card.street);
        street.up > 0 && street.down <= card.index
    }

    /// The street with this number, from 1; after the last one, a street that deals and draws
    /// nothing.
    pub fn street(&self, number: u8) -> Street
        ensures { IsStreetOf self.now.code number result }
    {
        let index = number.saturating_sub(1) as usize;
        if index < 5 {
            self.game.rows[index]
        } else {
            Street {
                down: 0,
                up: 0,
                board: 0,
                draws: false,
                size: Size::Least,
            }
        }
    }
}
