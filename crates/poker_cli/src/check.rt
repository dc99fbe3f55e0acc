//! Answers `check`: what each player of each hand finishes with, and then the number of hands.
ghost use Rattle.std.specs.Prelude.{◌≡◌, IfErr, IfOk, string_bytes};
ghost use Rattle.convert_core.specs.Formats.{HaveFault, SayRecords};
ghost use Rattle.convert_core.specs.Judged.{IsPlaysFaultOf};
ghost use Rattle.poker_cli.specs.AnswerParts.{IsAnswerTo, done};
ghost use Rattle.poker_cli.specs.Texts.{IsTextOf};
ghost use Rattle.poker_cli.specs.FaultAnswers.{answer_said};
ghost use Rattle.printed_hands.specs.Check.{check_line, check_said, each_hand};

use crate::answer::{Answer, answer_to_fault, answer_with_text};
use crate::hand_visitor::{HandVisitor, take_plays};
use card_set::Memory;
use convert_core::{Format, HandIndex, JudgedPlay, PlaysFault, SoundRecords, read_records};
use printed_hands::{push_check_end, push_check_line};
use std::alloc::Global;

// The lines of the hands so far.
#[derive(Drop)]
struct CheckLines {
    text: String,
}

impl HandVisitor for CheckLines {
    ghost TookPlays = { λ _ it plays. string_bytes it.text ≡ each_hand check_line 1 plays };

    fn take_play(
        &mut self,
        _: Global,
        place: HandIndex,
        judged: &JudgedPlay<'_>,
    ) -> Result<(), Memory> {
        let number = place.index as u64 + 1;
        push_check_line(&mut self.text, number, judged.play())
    }
}

/// The answer with a line for each hand in the bytes, and the last line.
pub fn answer_with_check(alloc: Global, from: &Format, bytes: &[u8]) -> Result<Answer, Memory>
    ensures { IfOk result (λ answer. IsAnswerTo (SayRecords from.now bytes.now)
        (HaveFault from.now bytes.now) (λ plays shown. shown ≡ done (check_said plays))
        (answer_said answer)) }
{
    match read_records(alloc, from, bytes) {
        Ok(records) => answer_with_text(alloc, check_text(alloc, records)),
        Err(fault) => answer_to_fault(alloc, &fault),
    }
}

// The line of each of these hands, and the last line.
fn check_text(alloc: Global, records: SoundRecords) -> Result<String, PlaysFault>
    ensures said { IfOk result (λ text. IsTextOf check_said records (string_bytes text)) }
    ensures refused { IfErr result (IsPlaysFaultOf records) }
{
    let hands = records.len();
    let lines = CheckLines {
        text: String::new(alloc),
    };
    let mut lines = take_plays(alloc, lines, records)?;
    push_check_end(&mut lines.text, hands as u64)?;
    Ok(lines.text)
}
