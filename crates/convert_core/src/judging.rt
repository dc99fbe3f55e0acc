//! Replays each record and compares what it states with its trace.
ghost use Rattle.std.specs.Prelude.{◌≡◌, ◌+◌, IfErr, OnErr, OnOk};
ghost use Rattle.hand_canon.specs.SoundRecord.{IsSoundRecord};
ghost use Rattle.convert_core.specs.Judged.{IsFaultAt, IsOneMorePlay};
ghost use Rattle.convert_core.specs.declared.refusal.PlaysFault.TheVariants as plays_faults;

use crate::judged_play::HandIndex;
use crate::refusal::{PlaysFault, Refusal};
use card_set::TryPush;
use hand_canon::{Play, Record, check_stated};
use replay_core::{ReplayFault, replay};
use std::alloc::Global;

/// Replays the record at this place of its file and appends its play to a list. The play is made
/// where it is kept: it is a few thousand bytes, which would be copied again and again.
///
/// # Errors
///
/// The hand's first fault; or out of memory.
pub fn replay_and_check(
    alloc: Global,
    plays: &mut Vec<Play>,
    place: HandIndex,
    hand: Record,
) -> Result<(), PlaysFault>
    requires { IsSoundRecord hand }
    ensures pushed { OnOk result (IsOneMorePlay plays.old.items hand plays.new.items) }
    ensures refused { IfErr result (IsFaultAt hand (place.index + 1)) }
    ensures unchanged { OnErr result (plays.new.items ≡ plays.old.items) }
{
    let number = place.index as u32 + 1;
    match replay(alloc, &hand.setup, &hand.rules, &hand.script) {
        Ok(trace) => {
            if let Err(differs) = check_stated(&trace, &hand.stated) {
                return Err(refused(number, Refusal::Fact(differs)));
            }
            plays.try_push(Play { hand, trace })?;
            Ok(())
        }
        Err(ReplayFault::Memory(memory)) => Err(PlaysFault::Memory(memory)),
        Err(fault) => Err(refused(number, Refusal::Replay(fault))),
    }
}

// The hand with this number, from 1, is refused.
fn refused(number: u32, why: Refusal) -> PlaysFault
    ensures { result ≡ plays_faults.Refused number why }
{
    PlaysFault::Refused { hand: number, why }
}
