//! A street deals hole cards or board cards, or draws, and then has a betting round of one bet
//! size.
ghost use Rattle.std.specs.Prelude.{◌≡◌, ◌≤◌, ◌-◌, Some, slice_get};
ghost use Rattle.play_event.specs.Games.{board_street, flop_streets, stud_street};

use play_event::{Size, Street};

/// A street that deals nothing, for numbers past the last street.
pub const NO_STREET: Street = Street {
    down: 0,
    up: 0,
    board: 0,
    draws: false,
    size: Size::Least,
};

/// The most seats of a game with a flop.
pub const FLOP_SEATS: u8 = 10;

/// The street of a game with a flop that has this number, from 1: hole cards, then three, one and
/// one on the board. `early` is the bet size of the first two streets, `late` that of the others.
pub fn flop_street(number: u8, cards: u8, early: Size, late: Size) -> Street
    requires first { 1 ≤ number }
    requires last { number ≤ 4 }
    ensures { slice_get (flop_streets cards early late) (number - 1)
        ≡ Some result }
{
    match number {
        1 => new_hole_street(cards, 0, early),
        2 => new_board_street(3, early),
        _ => new_board_street(1, late),
    }
}

/// A street that deals each live seat `down` cards face down and `up` cards face up.
pub fn new_hole_street(down: u8, up: u8, size: Size) -> Street
    ensures { result ≡ stud_street down up size }
{
    Street {
        down,
        up,
        size,
        ..NO_STREET
    }
}

// A street that deals `cards` cards to the board.
fn new_board_street(cards: u8, size: Size) -> Street
    ensures { result ≡ board_street cards size }
{
    Street {
        board: cards,
        size,
        ..NO_STREET
    }
}
