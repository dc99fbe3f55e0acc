//! The table of each game by its code, with the values of the type of this game.
ghost use Rattle.std.specs.Prelude.{◌≡◌, ◌≤◌};
ghost use Rattle.play_event.specs.Games.{game_of};
ghost use Rattle.variant_table.specs.Tables.{IsTableOf, street_at};

use crate::street::NO_STREET;
use crate::variant::Variant;
use hand_order::Pick;
use play_event::{Code, Limit, Opener, Street};

/// What is the same for all hands of a game.
#[derive(Clone, Copy, Debug, PartialEq, Eq)]
pub struct GameTable {
    pub limit: Limit,
    pub opener: Opener,
    pub pick: Pick,
    /// Whether half of a pot goes to the best low hand, if there is one.
    pub split: bool,
    /// How many cards the deck has.
    pub deck: u8,
    /// The most seats.
    pub seats: u8,
    /// The number of streets.
    pub streets: u8,
    /// The streets in order. Past the last one they deal nothing, draw nothing, and have the least
    /// bet.
    pub rows: [Street; 5],
}

/// The table of the game with this code.
pub fn table_of(code: Code) -> GameTable
    ensures { IsTableOf (game_of code) result }
{
    crate::by_code!(code, table())
}

// The table of a variant.
fn table<V: Variant>() -> GameTable
    ensures { IsTableOf (game_of V.CODE) result }
{
    GameTable {
        limit: V::LIMIT,
        opener: V::OPEN,
        pick: V::PICK,
        split: V::SPLIT,
        deck: V::DECK,
        seats: V::SEATS,
        streets: V::STREETS,
        rows: [
            row::<V>(1),
            row::<V>(2),
            row::<V>(3),
            row::<V>(4),
            row::<V>(5),
        ],
    }
}

// The street with this number; past the last one, a street that deals nothing.
fn row<V: Variant>(number: u8) -> Street
    requires { 1 ≤ number }
    ensures { result ≡ street_at (game_of V.CODE) number }
{
    if number <= V::STREETS {
        V::street(number)
    } else {
        NO_STREET
    }
}
