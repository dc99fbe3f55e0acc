//! Answers `replay --each`: the hands step by step, each by itself, and the verdict on each refused
//! one.
ghost use Rattle.std.specs.Prelude.{IfOk, OnOk, string_bytes};
ghost use Rattle.convert_core.specs.Judged.{IsReplayFaultOf};
ghost use Rattle.poker_cli.specs.Each.{Adds, AreOwnLines, AreReplayedAlone, IsOutcomeOf, IsReplayedAlone};

use crate::each_verdict::{outcome_of, push_refusal_line, verdict_on};
use card_set::Memory;
use convert_core::{SoundRecord, SoundRecords};
use hand_canon::Trace;
use printed_hands::{push_begun_lines, push_whole_lines};
use replay_core::{ReplayFault, legal_part};
use std::alloc::Global;

/// The lines of each of these hands, up to its first illegal event if it has one, each followed by
/// the verdict on the hand if it is refused.
///
/// # Errors
///
/// Out of memory.
pub fn replay_each(alloc: Global, records: &SoundRecords) -> Result<String, Memory>
    ensures { IfOk result (λ text. AreReplayedAlone 1 records.now (string_bytes text)) }
{
    let mut text = String::new(alloc);
    let count = records.len();
    for index in 0..count {
        let hand = records.get(index);
        push_hand(alloc, &mut text, index + 1, &hand)?;
    }
    Ok(text)
}

// Appends the lines of the hand with this number, and the verdict on it if it is refused.
fn push_hand(
    alloc: Global,
    text: &mut String,
    number: usize,
    hand: &SoundRecord<'_>,
) -> Result<(), Memory>
    ensures { OnOk result (Adds (IsReplayedAlone number hand.now.record.now)
        (string_bytes text.old) (string_bytes text.new)) }
{
    let outcome = outcome_of(alloc, hand);
    let why = verdict_on(hand, &outcome)?;
    push_own_lines(alloc, text, number, hand, &outcome)?;
    push_refusal_line(text, number, &why)
}

// Appends the lines of the hand with this number.
fn push_own_lines(
    alloc: Global,
    text: &mut String,
    number: usize,
    hand: &SoundRecord<'_>,
    outcome: &Result<Trace, ReplayFault>,
) -> Result<(), Memory>
    requires { IsOutcomeOf hand.now.record.now outcome.now }
    ensures { OnOk result (Adds (AreOwnLines number hand.now.record.now)
        (string_bytes text.old) (string_bytes text.new)) }
{
    match outcome {
        Ok(trace) => push_whole_lines(alloc, text, number as u64, hand.record, trace),
        Err(ReplayFault::Memory(memory)) => Err(*memory),
        Err(fault) => push_legal_part(alloc, text, number, hand, fault),
    }
}

// Appends the lines of the hand with this number, whose script has this fault, up to its first
// illegal event, or those of all its events.
fn push_legal_part(
    alloc: Global,
    text: &mut String,
    number: usize,
    hand: &SoundRecord<'_>,
    _fault: &ReplayFault,
) -> Result<(), Memory>
    requires { IsReplayFaultOf hand.now.record.now _fault.now }
    ensures { OnOk result (Adds (AreOwnLines number hand.now.record.now)
        (string_bytes text.old) (string_bytes text.new)) }
{
    let record = hand.record;
    let part = legal_part(alloc, &record.setup, &record.rules, &record.script)?;
    let events = part.events as u64;
    push_begun_lines(alloc, text, number as u64, record, &part.moves, events)
}
