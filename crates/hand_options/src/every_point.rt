//! The options at every point of a hand, from before its first event on.
ghost use Rattle.std.specs.Prelude.{◌≤◌, ◌+◌, length, OnOk, string_bytes};
ghost use Rattle.hand_options.specs.EveryPoint.{HasOptionTexts};
ghost use Rattle.hand_canon.specs.SoundRecord.{IsSoundRecord, script_said};
ghost use Rattle.replay_core.specs.LegalPart.{AreLegalBefore};

use crate::asking::options_at;
use crate::printing::push_options;
use card_set::Memory;
use hand_canon::Record;
use std::alloc::Global;

/// Appends the options of the hand with this number before its first event, after one event, and so
/// on up to `events` events, which must be legal; whether those after them are does not matter.
///
/// Each point is played from the first event on.
///
/// # Errors
///
/// Out of memory.
pub fn push_every_point(
    alloc: Global,
    text: &mut String,
    number: u32,
    hand: &Record,
    events: u32,
) -> Result<(), Memory>
    requires sound { IsSoundRecord hand.now }
    requires there { events ≤ length hand.now.script }
    requires legal_before { AreLegalBefore hand.now.setup hand.now.rules (script_said hand.now)
        events }
    ensures { OnOk result (HasOptionTexts number hand.now (events + 1)
        (string_bytes text.old) (string_bytes text.new)) }
{
    for point in 0..events + 1 {
        let options = options_at(hand, point);
        push_options(alloc, text, number, point, &options)?;
    }
    Ok(())
}
