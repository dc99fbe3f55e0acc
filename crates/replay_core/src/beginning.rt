//! The longest legal beginning of a script: the events before the first illegal one, or all of
//! them.
ghost use Rattle.std.specs.Prelude.{◌≡◌, IfOk};
ghost use Rattle.play_event.specs.PlayedScript.{IsWithinLimits};
ghost use Rattle.play_event.specs.ValidSetup.{IsValid};
ghost use Rattle.replay_core.specs.Events.{said_by};
ghost use Rattle.replay_core.specs.LegalPart.{IsLegalPart};

use crate::fault::ReplayFault;
use crate::hand_in_play::HandInPlay;
use crate::playing::play_events;
use card_set::Memory;
use hand_canon::Moves;
use play_event::{Rules, Script, Setup};
use std::alloc::Global;
use variant_table::{Variant, by_code};

/// The events of a script before its first illegal one; all of them if none is illegal.
#[derive(Debug, Drop)]
pub struct LegalPart {
    /// The number of these events.
    pub events: u32,
    /// Their moves, as a trace has them.
    pub moves: Moves,
}

/// The longest legal beginning of a script under its setup and rules, whether or not the hand is
/// legal.
///
/// The setup must be valid, and the script within the limits of a hand.
///
/// # Errors
///
/// Out of memory.
pub fn legal_part(
    alloc: Global,
    setup: &Setup,
    rules: &Rules,
    script: &Script,
) -> Result<LegalPart, Memory>
    requires valid { IsValid setup.now }
    requires within { IsWithinLimits (said_by script.now) }
    ensures { IfOk result (λ part.
        IsLegalPart setup.now rules.now (said_by script.now) part.events part.moves) }
{
    by_code!(setup.code, legal_part_of(alloc, setup, rules, script))
}

// The longest legal beginning of a script of the game `V`.
fn legal_part_of<V: Variant>(
    alloc: Global,
    setup: &Setup,
    rules: &Rules,
    script: &Script,
) -> Result<LegalPart, Memory>
    requires valid { IsValid setup.now }
    requires code { setup.now.code ≡ V.CODE }
    requires within { IsWithinLimits (said_by script.now) }
    ensures { IfOk result (λ part.
        IsLegalPart setup.now rules.now (said_by script.now) part.events part.moves) }
{
    let mut hand = HandInPlay::<V>::start(setup, rules);
    let mut moves = Moves::new(alloc);
    match play_events(&mut hand, &mut moves, script) {
        Ok(events) => Ok(LegalPart { events, moves }),
        Err(ReplayFault::Illegal { event, .. }) => Ok(LegalPart {
            events: event - 1,
            moves,
        }),
        Err(ReplayFault::Memory(memory)) => Err(memory),
        Err(
            ReplayFault::EndsEarly { .. }
            | ReplayFault::RakeTooBig { .. }
            | ReplayFault::NoShownHand { .. },
        ) => unreachable!(),
    }
}
