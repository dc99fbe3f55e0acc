//! Answers `replay`: the hands step by step.
ghost use Rattle.std.specs.Prelude.{◌≡◌, IfErr, IfOk, string_bytes};
ghost use Rattle.convert_core.specs.Formats.{HaveFault, SayRecords};
ghost use Rattle.convert_core.specs.Judged.{IsPlaysFaultOf};
ghost use Rattle.poker_cli.specs.AnswerParts.{IsAnswerTo, done};
ghost use Rattle.poker_cli.specs.Texts.{IsTextOf};
ghost use Rattle.poker_cli.specs.FaultAnswers.{answer_said};
ghost use Rattle.printed_hands.specs.Check.{each_hand};
ghost use Rattle.printed_hands.specs.Steps.{replay_lines};
ghost use Rattle.printed_hands.specs.Replay.{replay_said};

use crate::answer::{Answer, answer_to_fault, answer_with_text};
use crate::hand_visitor::{HandVisitor, take_plays};
use card_set::Memory;
use convert_core::{Format, HandIndex, JudgedPlay, PlaysFault, SoundRecords, read_records};
use hand_canon::SoundPlay;
use printed_hands::push_replay_lines;
use std::alloc::Global;

// The lines of the hands so far.
#[derive(Drop)]
struct ReplayLines {
    text: String,
}

impl HandVisitor for ReplayLines {
    ghost TookPlays = { λ _ it plays. string_bytes it.text ≡ each_hand replay_lines 1 plays };

    fn take_play(
        &mut self,
        alloc: Global,
        place: HandIndex,
        judged: &JudgedPlay<'_>,
    ) -> Result<(), Memory> {
        let number = place.index as u64 + 1;
        let play = SoundPlay::new(judged.play());
        push_replay_lines(alloc, &mut self.text, number, &play)
    }
}

/// The answer with the hands in the bytes step by step.
pub fn answer_with_replay(alloc: Global, from: &Format, bytes: &[u8]) -> Result<Answer, Memory>
    ensures { IfOk result (λ answer. IsAnswerTo (SayRecords from.now bytes.now)
        (HaveFault from.now bytes.now) (λ plays shown. shown ≡ done (replay_said plays))
        (answer_said answer)) }
{
    match read_records(alloc, from, bytes) {
        Ok(records) => answer_with_text(alloc, replay_text(alloc, records)),
        Err(fault) => answer_to_fault(alloc, &fault),
    }
}

// The lines of each of these hands.
fn replay_text(alloc: Global, records: SoundRecords) -> Result<String, PlaysFault>
    ensures said { IfOk result (λ text. IsTextOf replay_said records (string_bytes text)) }
    ensures refused { IfErr result (IsPlaysFaultOf records) }
{
    let lines = ReplayLines {
        text: String::new(alloc),
    };
    let lines = take_plays(alloc, lines, records)?;
    Ok(lines.text)
}
