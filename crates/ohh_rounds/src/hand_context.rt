//! What is known before the rounds of a hand are read.
ghost use Rattle.std.specs.Prelude.{◌≤◌};
ghost use Rattle.first_fault.specs.declared.limits.TheConstants.{MOST_FILE_MOVES};

use crate::named_blinds::NamedBlinds;
use ohh_members::dialect::Dialect;
use ohh_members::player_ids::PlayerIds;

/// What the rounds of a hand are read with.
#[derive(Clone, Copy, Debug, PartialEq, Eq)]
pub struct HandContext<'a> {
    pub players: PlayerIds<'a>,
    /// The starting stacks, the first seat's first, and the blinds.
    pub table: NamedBlinds,
    /// How many hole cards the game deals to a seat.
    pub hole_cards: u8,
    pub dialect: Dialect,
    /// The number of moves in the file before this hand.
    pub file_moves: usize,
    pub ghost few_cards: { hole_cards ≤ 7 },
    pub ghost few_moves: { file_moves ≤ MOST_FILE_MOVES },
}
