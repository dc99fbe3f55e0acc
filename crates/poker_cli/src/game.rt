//! Answers `game`: the game file that fits the first hand.
ghost use Rattle.std.specs.Prelude.{◌<◌, IfOk};
ghost use Rattle.convert_core.specs.Formats.{HaveFault, SayRecords};
ghost use Rattle.poker_cli.specs.AnswerParts.{IsAnswerTo};
ghost use Rattle.poker_cli.specs.Game.{IsGameReply};
ghost use Rattle.poker_cli.specs.FaultAnswers.{answer_said};

use crate::answer::{Answer, answer_to_fault, answer_to_unspelled, done_with_bytes};
use acpc_format::game_of;
use acpc_game::write_game;
use card_set::Memory;
use convert_core::{Format, plays};
use hand_canon::SoundPlays;
use std::alloc::Global;

/// The answer with the game file of the first hand in the bytes.
pub fn answer_with_game(alloc: Global, from: &Format, bytes: &[u8]) -> Result<Answer, Memory>
    ensures { IfOk result (λ answer. IsAnswerTo (SayRecords from.now bytes.now)
        (HaveFault from.now bytes.now) IsGameReply (answer_said answer)) }
{
    match plays(alloc, from, bytes) {
        Ok(plays) => answer_with_first_game(alloc, &SoundPlays::new(&plays)),
        Err(fault) => answer_to_fault(alloc, &fault),
    }
}

// The answer with the game file of the first play.
fn answer_with_first_game(alloc: Global, plays: &SoundPlays<'_>) -> Result<Answer, Memory>
    ensures { IfOk result (λ answer. IsGameReply plays.now (answer_said answer)) }
{
    let [play, ..] = plays.as_slice() else {
        return Ok(done_with_bytes(alloc, Vec::new(alloc)));
    };
    match game_of(play) {
        Ok(game) => Ok(done_with_bytes(alloc, write_game(alloc, &game)?)),
        Err(fact) => answer_to_unspelled(alloc, 1, fact),
    }
}
