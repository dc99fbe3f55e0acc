//! State while the betting of a hand is read.
ghost use Rattle.std.specs.Prelude.{◌≡◌, IfOk};
ghost use Rattle.acpc_reading.specs.Betting.{no_bets};
ghost use Rattle.acpc_reading.specs.Views.{bets_in};

use crate::step::BettingStep;
use card_set::{Memory, list_with_room};
use std::alloc::Global;

// Room for this number of letters is made at the start of a hand, and more as they come.
const USUAL_LETTERS: usize = 64;

/// The betting of a hand so far. One value is reused for all lines of a log, so that its memory is
/// allocated once.
#[derive(Debug, Drop)]
pub struct ReadBetting {
    pub steps: Vec<BettingStep>,
    /// The round that the next letter belongs to, from 1.
    pub round: u8,
    /// The number of moves of the hand.
    pub moves: usize,
    /// The number of moves of the file.
    pub file_moves: usize,
}

impl ReadBetting {
    /// No betting, in a file without moves.
    pub fn new(alloc: Global) -> Result<Self, Memory>
        ensures { IfOk result (λ betting. bets_in betting ≡ no_bets 0) }
    {
        Ok(ReadBetting {
            steps: list_with_room(alloc, USUAL_LETTERS)?,
            round: 1,
            moves: 0,
            file_moves: 0,
        })
    }

    /// Starts the next hand, without betting yet; the moves of the file are kept.
    pub fn clear(&mut self)
        ensures { bets_in self.new ≡ no_bets self.old.file_moves }
    {
        self.steps.clear();
        self.round = 1;
        self.moves = 0;
    }
}
