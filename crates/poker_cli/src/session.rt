//! Answers `session`: takes each hand, and keeps a row per name and the steps.
ghost use Rattle.std.specs.Prelude.{◌≡◌, IfErr, IfOk, string_bytes};
ghost use Rattle.convert_core.specs.Formats.{HaveFault, SayRecords};
ghost use Rattle.convert_core.specs.Judged.{IsPlaysFaultOf};
ghost use Rattle.hand_session.specs.SoFar.{IsSessionSoFar};
ghost use Rattle.poker_cli.specs.AnswerParts.{IsAnswerTo, done};
ghost use Rattle.poker_cli.specs.Texts.{IsTextOf};
ghost use Rattle.poker_cli.specs.FaultAnswers.{answer_said};
ghost use Rattle.hand_session.specs.Printed.{session_printed};
ghost use Rattle.hand_session.specs.Sessions.{session_said};

use crate::answer::{Answer, answer_to_fault, answer_with_text};
use crate::hand_visitor::{HandVisitor, take_plays};
use card_set::Memory;
use convert_core::{Format, HandIndex, JudgedPlay, PlaysFault, SoundRecords, read_records};
use hand_canon::SoundPlay;
use hand_session::{OpenSession, session_text};
use std::alloc::Global;

impl HandVisitor for OpenSession {
    ghost TookPlays = { λ _ it plays. IsSessionSoFar it plays };

    fn take_play(
        &mut self,
        alloc: Global,
        _: HandIndex,
        judged: &JudgedPlay<'_>,
    ) -> Result<(), Memory> {
        let play = SoundPlay::new(judged.play());
        self.add_play(alloc, &play)
    }
}

/// The answer with the session of the hands in the bytes.
pub fn answer_with_session(alloc: Global, from: &Format, bytes: &[u8]) -> Result<Answer, Memory>
    ensures { IfOk result (λ answer. IsAnswerTo (SayRecords from.now bytes.now)
        (HaveFault from.now bytes.now) (λ plays shown. shown
        ≡ done (session_printed (session_said plays)))
        (answer_said answer)) }
{
    match read_records(alloc, from, bytes) {
        Ok(records) => answer_with_text(alloc, session_of(alloc, records)),
        Err(fault) => answer_to_fault(alloc, &fault),
    }
}

// The text of the session of these hands.
fn session_of(alloc: Global, records: SoundRecords) -> Result<String, PlaysFault>
    ensures said { IfOk result (λ text.
        IsTextOf (λ plays. session_printed (session_said plays)) records (string_bytes text)) }
    ensures refused { IfErr result (IsPlaysFaultOf records) }
{
    let session = take_plays(alloc, OpenSession::new(alloc), records)?;
    Ok(session_text(alloc, &session.close())?)
}
