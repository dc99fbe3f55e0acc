//! The format can write each play in which no raise is closed by a short raise before it.
ghost use Rattle.std.specs.Prelude.{◌≡◌};
ghost use Rattle.phh_format.specs.Spelled.{unspelled};
ghost use Rattle.hand_canon.specs.WriteRefusals.{first_refusal};

use hand_canon::{Keep, Play, SoundPlays, Unspelled, WriteRefusal};

/// The refusal of the first play that the format cannot write. The first hand has the number 1.
pub fn find_refusal(plays: &SoundPlays<'_>, keep: Keep) -> Option<WriteRefusal>
    ensures { result ≡ first_refusal unspelled plays.now }
{
    let plays = plays.as_slice();
    for (index, play) in plays.iter().enumerate() {
        if let Some(fact) = spells(play, keep) {
            return Some(WriteRefusal::Unspelled {
                hand: index as u32 + 1,
                fact,
            });
        }
    }
    None
}

/// The first fact of the play that the format cannot write. It can write all notes, so the choice
/// of notes does not matter.
#[tactic(auto, unfolding(crate::specs::Spelled::unspelled))]
pub fn spells(play: &Play, _keep: Keep) -> Option<Unspelled>
    ensures { result ≡ unspelled play.now }
{
    if play.trace.moves.has_closed_raise() {
        Some(Unspelled::ReopenedShort)
    } else {
        None
    }
}
