//! Answers `convert`: the same hands in another notation.
ghost use Rattle.std.specs.Prelude.{IfOk};
ghost use Rattle.convert_core.specs.Formats.{HaveFault, SayRecords};
ghost use Rattle.poker_cli.specs.AnswerParts.{IsAnswerTo};
ghost use Rattle.poker_cli.specs.Convert.{IsConversion};
ghost use Rattle.poker_cli.specs.FaultAnswers.{answer_said};

use crate::answer::{Answer, answer_to_fault, done_with_bytes};
use card_set::Memory;
use convert_core::{Format, convert};
use hand_canon::Keep;
use std::alloc::Global;

/// The answer with the hands in the bytes, written in the target notation.
pub fn answer_with_hands(
    alloc: Global,
    from: &Format,
    to: &Format,
    keep: Keep,
    bytes: &[u8],
) -> Result<Answer, Memory>
    ensures { IfOk result (λ answer. IsAnswerTo (SayRecords from.now bytes.now)
        (HaveFault from.now bytes.now) (IsConversion to.now keep) (answer_said answer)) }
{
    match convert(alloc, from, to, keep, bytes) {
        Ok(output) => Ok(done_with_bytes(alloc, output)),
        Err(fault) => answer_to_fault(alloc, &fault),
    }
}
