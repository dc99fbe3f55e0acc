//! Finds the first fact of a play that the logs of a game cannot write.
ghost use Rattle.std.specs.Prelude.{◌≡◌};
ghost use Rattle.acpc_format.specs.Spelled.{unspelled};
ghost use Rattle.hand_canon.specs.WriteRefusals.{first_refusal};

use crate::fits::find_other_setup;
use crate::notes::find_other_note;
use crate::played::find_other_play;
use acpc_game::Game;
use hand_canon::{Keep, Play, SoundPlays, Unspelled, WriteRefusal};

/// The refusal of the first play that the logs of a game cannot write. Hands are numbered from 1.
pub fn find_refusal(game: &Game, plays: &SoundPlays<'_>, keep: Keep) -> Option<WriteRefusal>
    ensures { result ≡ first_refusal (unspelled game.now keep) plays.now }
{
    let plays = plays.as_slice();
    for (index, play) in plays.iter().enumerate() {
        if let Some(fact) = spells(game, play, keep) {
            return Some(WriteRefusal::Unspelled {
                hand: index as u32 + 1,
                fact,
            });
        }
    }
    None
}

/// The first fact of the play that the logs of this game cannot write. Notes count only if all of
/// them are to be kept.
#[tactic(auto, unfolding(crate::specs::Spelled::unspelled))]
pub fn spells(game: &Game, play: &Play, keep: Keep) -> Option<Unspelled>
    ensures { result ≡ unspelled game.now keep play.now }
{
    let setup = find_other_setup(game, &play.trace.setup);
    if setup.is_some() {
        return setup;
    }
    let played = find_other_play(game, &play.trace);
    if played.is_some() {
        return played;
    }
    find_other_note(&play.hand.notes, keep)
}
