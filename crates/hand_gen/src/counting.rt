//! The numbers of one made hand.
ghost use Rattle.std.specs.Prelude.{◌≡◌, ◌≤◌, ◌∷◌, [], Ok, IfOk, length};
ghost use Rattle.acpc_game.specs.GameView.{game_in};
ghost use Rattle.acpc_format.specs.GameOf as games;
ghost use Rattle.hand_canon.specs.declared.trace.Play.{Play as PlayNow};
ghost use Rattle.phh_format.specs.Spelled as phh;
ghost use Rattle.hand_gen.specs.Load.{AreCountsOf, IsInHistories, IsInLogs, hands_spelled};

use crate::summary::{PlayCounts, SpelledSize};
use acpc_format::game_of;
use acpc_game::Game;
use card_set::Memory;
use hand_canon::{Keep, Play, SoundPlay, SoundPlays, WriteRefusal, pot_total};
use ohh_members::Dialect;
use std::alloc::Global;

/// The numbers of the only play of a file.
pub fn counts_of(alloc: Global, file: &SoundPlays<'_>) -> Result<PlayCounts, Memory>
    requires { length file.now ≡ 1 }
    ensures { (play : PlayNow) → file.now ≡ play ∷ [] → IfOk result (AreCountsOf play) }
{
    let only = file.get(0);
    let ohh = in_histories(alloc, file)?;
    let acpc = in_logs(alloc, &only, file)?;
    let play = only.play();
    Ok(PlayCounts {
        moves: play.trace.moves.len() as u128,
        pots: pot_total(&play.trace),
        phh: in_tables(play),
        ohh,
        acpc,
    })
}

// The size of a play in Open Hand History, as a file of its own.
fn in_histories(alloc: Global, file: &SoundPlays<'_>) -> Result<SpelledSize, Memory>
    ensures { (play : PlayNow) → file.now ≡ play ∷ [] → IfOk result (IsInHistories play) }
{
    match ohh_writing::write(alloc, Dialect::Added, file.as_slice(), Keep::All) {
        Ok(bytes) => Ok(spelled_in(bytes.len())),
        Err(WriteRefusal::Memory(memory)) => Err(memory),
        Err(WriteRefusal::Unspelled { hand: _, fact: _ }) => Ok(not_spelled()),
    }
}

// The size of a play in the logs of the game that it fits.
fn in_logs(
    alloc: Global,
    play: &SoundPlay<'_>,
    file: &SoundPlays<'_>,
) -> Result<SpelledSize, Memory>
    ensures { file.now ≡ play.now ∷ [] → IfOk result (IsInLogs play.now) }
{
    match game_of(play.play()) {
        Ok(game) => in_logs_of(alloc, &game, file),
        Err(_) => Ok(not_spelled()),
    }
}

// The size of a play in the logs of a game, as a file of its own.
fn in_logs_of(alloc: Global, game: &Game, file: &SoundPlays<'_>) -> Result<SpelledSize, Memory>
    ensures { (play : PlayNow) → file.now ≡ play ∷ []
        → games.game_for play.trace.setup ≡ Ok (game_in game.now) → IfOk result (IsInLogs play) }
{
    match acpc_format::write(alloc, game, file.as_slice(), Keep::All) {
        Ok(bytes) => Ok(spelled_in(bytes.len())),
        Err(WriteRefusal::Memory(memory)) => Err(memory),
        Err(WriteRefusal::Unspelled { hand: _, fact: _ }) => Ok(not_spelled()),
    }
}

// A hand that is written in this number of bytes.
fn spelled_in(bytes: usize) -> SpelledSize
    ensures hands { result.hands ≡ 1 }
    ensures bytes { result.bytes ≡ bytes }
{
    SpelledSize {
        hands: 1,
        bytes: bytes as u128,
    }
}

// A hand that cannot be written.
fn not_spelled() -> SpelledSize
    ensures hands { result.hands ≡ 0 }
    ensures bytes { result.bytes ≡ 0 }
{
    SpelledSize { hands: 0, bytes: 0 }
}

// Whether the Poker Hand History format can express the hand, as 1 or 0.
fn in_tables(play: &Play) -> u128
    ensures hands { result ≡ hands_spelled (phh.unspelled play.now) }
    ensures one { result ≤ 1 }
{
    match phh_format::spells(play, Keep::All) {
        Some(_) => 0,
        None => 1,
    }
}
