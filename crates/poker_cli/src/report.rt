//! Answers `report`: takes each hand, and keeps a tally per name and the sums per game.
ghost use Rattle.std.specs.Prelude.{◌≡◌, IfErr, IfOk, string_bytes};
ghost use Rattle.convert_core.specs.Formats.{HaveFault, SayRecords};
ghost use Rattle.convert_core.specs.Judged.{IsPlaysFaultOf};
ghost use Rattle.poker_cli.specs.AnswerParts.{IsAnswerTo, done};
ghost use Rattle.poker_cli.specs.Texts.{IsTextOf};
ghost use Rattle.poker_cli.specs.FaultAnswers.{answer_said};
ghost use Rattle.printed_hands.specs.SoFar.{IsReportSoFar};
ghost use Rattle.printed_hands.specs.Report.{report_said};

use crate::answer::{Answer, answer_to_fault, answer_with_text};
use crate::hand_visitor::{HandVisitor, take_plays};
use card_set::Memory;
use convert_core::{Format, HandIndex, JudgedPlay, PlaysFault, SoundRecords, read_records};
use printed_hands::OpenReport;
use std::alloc::Global;

impl HandVisitor for OpenReport {
    ghost TookPlays = { λ _ it plays. IsReportSoFar it plays };

    fn take_play(
        &mut self,
        alloc: Global,
        _: HandIndex,
        judged: &JudgedPlay<'_>,
    ) -> Result<(), Memory> {
        self.add_play(alloc, judged.play())
    }
}

/// The answer with the report on the hands in the bytes.
pub fn answer_with_report(alloc: Global, from: &Format, bytes: &[u8]) -> Result<Answer, Memory>
    ensures { IfOk result (λ answer. IsAnswerTo (SayRecords from.now bytes.now)
        (HaveFault from.now bytes.now) (λ plays shown. shown ≡ done (report_said plays))
        (answer_said answer)) }
{
    match read_records(alloc, from, bytes) {
        Ok(records) => answer_with_text(alloc, report_of(alloc, records)),
        Err(fault) => answer_to_fault(alloc, &fault),
    }
}

// The text of the report on these hands.
fn report_of(alloc: Global, records: SoundRecords) -> Result<String, PlaysFault>
    ensures said { IfOk result (λ text. IsTextOf report_said records (string_bytes text)) }
    ensures refused { IfErr result (IsPlaysFaultOf records) }
{
    let report = take_plays(alloc, OpenReport::new(alloc)?, records)?;
    Ok(report.text(alloc)?)
}
