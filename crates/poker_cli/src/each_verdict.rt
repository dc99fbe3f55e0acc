//! The verdict on one hand, and its line if the hand is refused.
ghost use Rattle.std.specs.Prelude.{◌≡◌, ◌++◌, IfOk, OnOk, string_bytes};
ghost use Rattle.hand_canon.specs.declared.record.Record.{Record as AnyRecord};
ghost use Rattle.poker_cli.specs.Each.{IsOutcomeOf, IsVerdictOn, refusal_line};

use crate::judge::push_refused;
use card_set::Memory;
use convert_core::{Refusal, SoundRecord};
use hand_canon::{Trace, check_stated};
use replay_core::{ReplayFault, replay};
use std::alloc::Global;

/// What the replay of a hand gives: its trace, or what is wrong with its script.
pub fn outcome_of(alloc: Global, hand: &SoundRecord<'_>) -> Result<Trace, ReplayFault>
    ensures { IsOutcomeOf hand.now.record.now result }
{
    let record = hand.record;
    replay(alloc, &record.setup, &record.rules, &record.script)
}

/// Why a hand is refused, by what its replay gave; `None` if it is legal and agrees with what is
/// stated of it.
///
/// # Errors
///
/// Out of memory.
pub fn verdict_on(
    hand: &SoundRecord<'_>,
    outcome: &Result<Trace, ReplayFault>,
) -> Result<Option<Refusal>, Memory>
    requires { IsOutcomeOf hand.now.record.now outcome.now }
    ensures { IfOk result (IsVerdictOn hand.now.record.now) }
{
    let record = hand.record;
    match outcome {
        Ok(trace) => match check_stated(trace, &record.stated) {
            Ok(()) => Ok(None),
            Err(differs) => Ok(Some(Refusal::Fact(differs))),
        },
        Err(ReplayFault::Memory(memory)) => Err(*memory),
        Err(fault) => Ok(Some(Refusal::Replay(*fault))),
    }
}

/// Appends the line of the verdict on the hand with this number, if it is refused.
pub fn push_refusal_line(
    text: &mut String,
    number: usize,
    why: &Option<Refusal>,
) -> Result<(), Memory>
    ensures { (hand : AnyRecord) → OnOk result (string_bytes text.new
        ≡ string_bytes text.old ++ refusal_line number hand why.now) }
{
    let Some(why) = why else {
        return Ok(());
    };
    push_refused(text, number, None, why)
}
