//! Collects the plays of all records.
ghost use Rattle.std.specs.Prelude.{true, false, All, IfErr, IfOk, ⊤};
ghost use Rattle.convert_core.specs.Judged.{ArePlaysOf, IsPlaysFaultOf};
ghost use Rattle.hand_canon.specs.Sound.{IsSound};

use crate::judged_play::{HandIndex, JudgedPlay};
use crate::refusal::{PlaysFault, Refusal};
use crate::sound_records::SoundRecords;
use crate::taking::judge_all;
use crate::visitor::VerdictVisitor;
use card_set::Memory;
use hand_canon::Play;
use std::alloc::Global;

// Visits hands and does nothing with them but retain their plays.
#[derive(Drop)]
struct Keeper;

impl VerdictVisitor for Keeper {
    ghost CONTINUES = { false };

    ghost KEEPS = { true };

    ghost Took = { λ _ _ _. ⊤ };

    fn continues(&self) -> bool {
        false
    }

    fn retains_plays(&self) -> bool {
        true
    }

    fn legal(&mut self, _: Global, _: HandIndex, _: &JudgedPlay<'_>) -> Result<(), Memory> {
        Ok(())
    }

    fn refused(&mut self, _: Global, _: HandIndex, _: &Refusal) -> Result<(), Memory> {
        Ok(())
    }
}

/// The plays of records, in their order: each record with the trace that its script replays to. A
/// hand is refused if its script cannot be replayed, or else if a stated fact differs from its
/// trace.
///
/// # Errors
///
/// The first refused hand, with its first fault; or out of memory.
pub fn plays_of(alloc: Global, records: SoundRecords) -> Result<Vec<Play>, PlaysFault>
    ensures plays { IfOk result (λ plays. ArePlaysOf records plays.items) }
    ensures sound { IfOk result (λ plays. All IsSound plays.items) }
    ensures refused { IfErr result (IsPlaysFaultOf records) }
{
    judge_all(alloc, &mut Keeper, records)
}
