//! Writes plays as the lines of a log.
ghost use Rattle.std.specs.Prelude.{◌≡◌, ◌⊎◌, ◌≤◌, None, Some, length, IfErr, IfOk, OnOk};
ghost use Rattle.std.specs.List.{AllByRecursion};
ghost use Rattle.hand_canon.specs.Sound.{IsSound};
ghost use Rattle.first_fault.specs.declared.limits.TheConstants.{MOST_HANDS};
ghost use Rattle.acpc_format.specs.Line.{log_text};
ghost use Rattle.acpc_format.specs.Spelled.{unspelled};
ghost use Rattle.acpc_format.specs.Texts.{HasTexts};
ghost use Rattle.hand_canon.specs.WriteRefusals.{IsOutOfMemory, first_refusal};

use crate::line::push_line;
use crate::spelled::find_refusal;
use acpc_game::Game;
use hand_canon::{Keep, Play, SoundPlays, WriteRefusal};
use std::alloc::Global;

/// The lines of some plays, one per play. Nothing is written if the logs of the game cannot write
/// one of them.
///
/// # Errors
///
/// The number of the first such play, from 1, and its first fact that cannot be written.
pub fn write(
    alloc: Global,
    game: &Game,
    plays: &[Play],
    keep: Keep,
) -> Result<Vec<u8>, WriteRefusal>
    requires few { length plays.now ≤ MOST_HANDS }
    requires sound { AllByRecursion IsSound plays.now }
    ensures written { IfOk result (λ bytes. bytes.items ≡ log_text game.now.no_limit plays.now) }
    ensures texts { OnOk result (AllByRecursion HasTexts plays.now) }
    ensures spelled { OnOk result (first_refusal (unspelled game.now keep) plays.now ≡ None) }
    ensures refused { IfErr result (λ refusal. IsOutOfMemory refusal
        ⊎ (first_refusal (unspelled game.now keep) plays.now ≡ Some refusal)) }
{
    let plays = SoundPlays::new(plays);
    if let Some(refusal) = find_refusal(game, &plays, keep) {
        return Err(refusal);
    }
    let mut out = Vec::new(alloc);
    for index in 0..plays.len() {
        push_line(alloc, &mut out, game.no_limit, index, &plays.get(index))?;
    }
    Ok(out)
}
