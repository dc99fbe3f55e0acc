//! The end of a hand, as rows: what the betting and the cards leave.
ghost use Rattle.std.specs.Prelude.{◌≡◌, List, IfOk};
ghost use Rattle.play_event.specs.Said.{Said};
ghost use Rattle.play_event.specs.Scripts.{past_at_end};
ghost use Rattle.play_event.specs.declared.setup.Rules.{Rules};
ghost use Rattle.play_event.specs.declared.setup.Setup.{Setup};
ghost use Rattle.replay_core.specs.AtEnd.{IsAtEnd, StandAtEnd};
ghost use Rattle.replay_core.specs.Events.{AreMovesOf};

use crate::hand_in_play::HandInPlay;
use crate::places::places_of;
use crate::rows::{mucked_row, shown_row};
use card_set::{CardRow, Memory};
use chip_ledger::{LiveRow, SeatRow};
use hand_canon::{Moves, Places};
use play_event::HandRow;
use std::alloc::Global;
use variant_table::Variant;

/// A hand that was played to its end: who is live, what each seat put in and has left, who is shown
/// and who mucks, the hands and the board, and the cards and the moves of the trace.
#[derive(Drop)]
pub struct HandAtEnd {
    pub live: LiveRow,
    pub puts: SeatRow,
    pub left: SeatRow,
    pub shown: LiveRow,
    pub mucked: LiveRow,
    pub hands: HandRow,
    pub board: CardRow,
    pub places: Places,
    pub moves: Moves,
}

/// The rows of a hand that was played to its end, with its moves.
pub fn at_end<V: Variant>(
    alloc: Global,
    hand: &HandInPlay<V>,
    moves: Moves,
) -> Result<HandAtEnd, Memory>
    ensures { (setup : Setup) (rules : Rules) (script : List Said) → setup.code ≡ V.CODE
        → StandAtEnd setup rules script hand.now.betting hand.now.cards
        → AreMovesOf setup (past_at_end setup script) moves
        → IfOk result (IsAtEnd setup (past_at_end setup script)) }
{
    let live = hand.betting.live();
    let silent = hand.cards.mucked();
    let unknown = hand.cards.unknown();
    let shown = shown_row(&live, &silent, &unknown);
    let mucked = mucked_row(&live, &shown);
    let puts = hand.betting.puts();
    let left = hand.betting.stacks();
    let hands = hand.cards.hands();
    let board = hand.cards.board();
    let places = places_of(alloc, &hand.cards)?;
    Ok(HandAtEnd {
        live,
        puts,
        left,
        shown,
        mucked,
        hands,
        board,
        places,
        moves,
    })
}
