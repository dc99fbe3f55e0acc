//! Answers `options` about one hand by itself: the legal moves at every point of it, or at one,
//! whatever the other hands are.
ghost use Rattle.std.specs.Prelude.{IfOk, string_bytes};
ghost use Rattle.poker_cli.specs.Each.{IsEveryPoint, IsPoint, IsTextOfPoints};
ghost use Rattle.poker_cli.specs.FaultAnswers.{answer_said};

use crate::answer::{Answer, answer_no_hand, done_with_bytes, done_with_text};
use crate::each_verdict::{outcome_of, push_refusal_line, verdict_on};
use crate::options::answer_no_event;
use card_set::Memory;
use convert_core::{SoundRecord, SoundRecords};
use hand_options::{options_at, options_text, push_every_point};
use replay_core::legal_part;
use std::alloc::Global;

/// The answer with the legal moves at every point of the hand with this number, up to its first
/// illegal event, and the verdict on it if it is refused.
pub fn answer_with_points(
    alloc: Global,
    hand: u32,
    records: &SoundRecords,
) -> Result<Answer, Memory>
    ensures { IfOk result (λ answer. IsEveryPoint hand records.now (answer_said answer)) }
{
    let index = (hand as usize).saturating_sub(1);
    let count = records.len();
    if count <= index {
        return answer_no_hand(alloc, hand, count);
    }
    let record = records.get(index);
    let text = text_of_points(alloc, hand, &record)?;
    Ok(done_with_text(alloc, text))
}

// The legal moves at every point of the hand with this number, and the verdict on it if it is
// refused.
fn text_of_points(alloc: Global, number: u32, hand: &SoundRecord<'_>) -> Result<String, Memory>
    ensures { IfOk result (λ text. IsTextOfPoints number hand.now.record.now (string_bytes text)) }
{
    let outcome = outcome_of(alloc, hand);
    let why = verdict_on(hand, &outcome)?;
    let record = hand.record;
    let part = legal_part(alloc, &record.setup, &record.rules, &record.script)?;
    let mut text = String::new(alloc);
    push_every_point(alloc, &mut text, number, record, part.events)?;
    push_refusal_line(&mut text, number as usize, &why)?;
    Ok(text)
}

/// The answer with the legal moves after the first events of the hand with this number, which must
/// come before its first illegal event.
pub fn answer_with_point(
    alloc: Global,
    hand: u32,
    events: u32,
    records: &SoundRecords,
) -> Result<Answer, Memory>
    ensures { IfOk result (λ answer. IsPoint hand events records.now (answer_said answer)) }
{
    let index = (hand as usize).saturating_sub(1);
    let count = records.len();
    if count <= index {
        return answer_no_hand(alloc, hand, count);
    }
    let sound = records.get(index);
    let record = sound.record;
    let part = legal_part(alloc, &record.setup, &record.rules, &record.script)?;
    if part.events < events {
        return answer_no_event(alloc, hand, events, part.events as usize);
    }
    let options = options_at(record, events);
    let text = options_text(alloc, hand, events, &options)?;
    Ok(done_with_bytes(alloc, text))
}
