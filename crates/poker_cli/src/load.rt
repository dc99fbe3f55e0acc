//! Answers `load`: generates hands and sums them up.
ghost use Rattle.std.specs.Prelude.{IfOk};
ghost use Rattle.poker_cli.specs.Load.{IsSummed};
ghost use Rattle.poker_cli.specs.FaultAnswers.{answer_said};

use crate::answer::Answer;
use crate::status::Status;
use card_set::Memory;
use command_words::HandCount;
use hand_gen::{load, write_summary};
use std::alloc::Global;

/// The answer with the summary of `hands` hands generated from a seed.
pub fn answer_to_load(alloc: Global, seed: u64, hands: HandCount) -> Result<Answer, Memory>
    ensures { IfOk result (λ answer. IsSummed seed hands.number (answer_said answer)) }
{
    let summary = load(alloc, seed, hands.number)?;
    let text = write_summary(alloc, &summary)?;
    Ok(Answer {
        status: Status::Done,
        output: text.into_bytes(),
        line: String::new(alloc),
    })
}
