//! The options at a point of a hand: what is due, who is to act, and which moves are legal.

use chip_ledger::Seat;
use play_event::Due;

/// What is due at a point of a hand, and which moves of the player to act are legal there. If no
/// player is to act, there are no moves.
#[derive(Clone, Copy, Debug, PartialEq, Eq)]
pub struct Options {
    pub due: Due,
    /// The player to act, if a move or a bring-in is due.
    pub seat: Option<Seat>,
    /// Whether a fold is legal.
    pub fold: bool,
    /// The chips that a call adds. A check adds 0.
    pub call: Option<u64>,
    /// The chips on the street to which a bring-in goes.
    pub bring_in: Option<u64>,
    pub raise: RaiseSet,
}

/// The chips on the street to which a bet or raise may go.
#[derive(Clone, Copy, Debug, PartialEq, Eq)]
pub enum RaiseSet {
    /// No raise is legal.
    None,
    /// Each amount from the lowest to the highest: in no limit and pot limit.
    Range { least: u64, greatest: u64 },
    /// The first `count` of these amounts, one or two, in rising order: in fixed limit.
    List { count: u8, to: [u64; 2] },
}
