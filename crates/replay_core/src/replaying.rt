//! Replays a script under its setup and rules, to its trace.
ghost use Rattle.std.specs.Prelude.{◌≡◌, IfErr, IfOk, OnOk};
ghost use Rattle.hand_canon.specs.Agreement.{HasBoundedPots};
ghost use Rattle.play_event.specs.PlayedScript.{IsWithinLimits};
ghost use Rattle.hand_canon.specs.LegalHand.{IsLegalHand};
ghost use Rattle.play_event.specs.Tidy.{IsTidy};
ghost use Rattle.hand_canon.specs.TraceRows.{core_said};
ghost use Rattle.hand_canon.specs.WholeTrace.{IsTraceOf};
ghost use Rattle.play_event.specs.Scripts.{past_at_end};
ghost use Rattle.play_event.specs.ValidSetup.{IsValid};
ghost use Rattle.trace_laws.specs.Conserved.{IsConserved};
ghost use Rattle.replay_core.specs.Events.{said_by};
ghost use Rattle.replay_core.specs.Faults.{IsFaultOf};
ghost use Rattle.replay_core.specs.Replayed.{IsReplayOf};

use crate::fault::ReplayFault;
use crate::finish::finish_row;
use crate::playing::play_out;
use crate::stakes::pots_of;
use hand_canon::Trace;
use play_event::{Rules, Script, Setup};
use showdown_split::{first_rake_above, split};
use std::alloc::Global;
use variant_table::{Variant, by_code};

/// The trace of a script under its setup and rules, or what is wrong with the script.
///
/// It goes over the events once. The setup must be valid, and the script within the limits of a
/// hand.
pub fn replay(
    alloc: Global,
    setup: &Setup,
    rules: &Rules,
    script: &Script,
) -> Result<Trace, ReplayFault>
    requires valid { IsValid setup.now }
    requires within { IsWithinLimits (said_by script.now) }

    // The trace of the rules, if the hand is legal; else the first fault.
    ensures trace { IfOk result (IsTraceOf setup.now (past_at_end setup.now (said_by script.now))) }
    ensures legal { OnOk result (IsLegalHand setup.now rules.now (said_by script.now)) }
    ensures fault { IfErr result (IsFaultOf setup.now rules.now script.now) }

    // It follows that no chip is made or lost, that the canonical script can be written, and that
    // stated facts can be compared.
    ensures conserved { IfOk result
        (IsConserved setup.now (past_at_end setup.now (said_by script.now))) }
    ensures tidy { IfOk result (λ trace. IsTidy (core_said trace)) }
    ensures bounded { IfOk result HasBoundedPots }
{
    replay_by_code(alloc, setup, rules, script)
}

// Replays a script of the game that its setup names.
fn replay_by_code(
    alloc: Global,
    setup: &Setup,
    rules: &Rules,
    script: &Script,
) -> Result<Trace, ReplayFault>
    requires valid { IsValid setup.now }
    requires within { IsWithinLimits (said_by script.now) }
    ensures replayed { IfOk result
        (IsReplayOf setup.now rules.now (said_by script.now)) }
    ensures fault { IfErr result (IsFaultOf setup.now rules.now script.now) }
{
    by_code!(setup.code, replay_of(alloc, setup, rules, script))
}

// Replays a script of the game `V`.
fn replay_of<V: Variant>(
    alloc: Global,
    setup: &Setup,
    rules: &Rules,
    script: &Script,
) -> Result<Trace, ReplayFault>
    requires valid { IsValid setup.now }
    requires code { setup.now.code ≡ V.CODE }
    requires within { IsWithinLimits (said_by script.now) }
    ensures replayed { IfOk result
        (IsReplayOf setup.now rules.now (said_by script.now)) }
    ensures fault { IfErr result (IsFaultOf setup.now rules.now script.now) }
{
    let hand = play_out::<V>(alloc, setup, rules, script)?;
    let pots = pots_of(setup, &hand.puts, &hand.live);
    if let Some(pot) = first_rake_above(&pots, &setup.rakes) {
        return Err(ReplayFault::RakeTooBig { pot });
    }
    let shares = match split::<V>(&pots, &setup.rakes, &hand.hands, &hand.board, &hand.shown) {
        Ok(shares) => shares,
        Err(fault) => return Err(ReplayFault::NoShownHand { pot: fault.pot }),
    };
    let finish = finish_row(&hand.left, &pots.returned, &shares);
    Ok(Trace {
        setup: *setup,
        places: hand.places,
        moves: hand.moves,
        shown: hand.shown,
        mucked: hand.mucked,
        pots,
        shares,
        finish,
    })
}
