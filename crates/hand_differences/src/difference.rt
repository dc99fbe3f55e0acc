//! The first difference of two plays.
use chip_ledger::Seat;
use hand_canon::NoteName;

/// The first difference of two plays, in the order in which differences are looked for.
#[derive(Clone, Copy, Debug, PartialEq, Eq)]
pub enum Difference {
    /// The game.
    Variant,
    /// How many seats there are.
    SeatCount,
    /// A starting stack.
    Stacks,
    /// The bring-in, the small bet, the big bet or the minimum bet.
    BetSizes,
    /// An ante, or whether antes are dead.
    Antes,
    /// A blind in full, even if a stack is too short for it.
    Blinds,
    /// The rake of a pot.
    Rake,
    /// A move of the first play: its number among all moves, from 1; its street, from 1; and its
    /// seat.
    Move {
        number: usize,
        street: u8,
        seat: Seat,
    },
    /// A dealt card of the first play: its number among all dealt cards, from 1; the street of its
    /// deal, from 1; and the seat that it was dealt to, or `None` for the board.
    Card {
        number: usize,
        street: u8,
        owner: Option<Seat>,
    },
    /// The lowest seat that is shown in only one of the two plays.
    Shown(Seat),
    /// A note.
    Note(NoteName),
}
