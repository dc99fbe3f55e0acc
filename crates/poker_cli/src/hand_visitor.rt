//! Takes the plays of hands one after the other, up to the first refused hand.
ghost use Rattle.std.specs.Prelude.{◌≡◌, ◌++◌, [], ◌∷◌, false, List, length, IfErr, IfOk, OnOk};
ghost use Rattle.convert_core.specs.Judged.{IsPlaysFaultOf};
ghost use Rattle.convert_core.specs.Verdicts.{legal_plays};
ghost use Rattle.hand_canon.specs.declared.trace.Play.{Play as AnyPlay};
ghost use Rattle.poker_cli.specs.Played.{HasTakenPlays, HaveTaken};

use card_set::Memory;
use convert_core::{
    HandIndex, JudgedPlay, PlaysFault, Refusal, SoundRecords, VerdictVisitor, judge_all,
};
use std::alloc::Global;

/// Takes the plays of a file, one after the other. Each is dropped before the next is made.
pub trait HandVisitor {
    /// What holds of a taker before and after it took these plays.
    ghost TookPlays: { Self → Self → List AnyPlay → Type 0 };

    /// Takes the play of the hand at its place in the file, from 0.
    ///
    /// # Errors
    ///
    /// Out of memory.
    fn take_play(
        &mut self,
        alloc: Global,
        place: HandIndex,
        play: &JudgedPlay<'_>,
    ) -> Result<(), Memory>
        requires { (start : Self) × HasTakenPlays (TookPlays start self.old) place.index }
        ensures { (start : Self) (before : List AnyPlay) → length before ≡ place.index
            → TookPlays start self.old before
            → OnOk result (TookPlays start self.new (before ++ play.now ∷ [])) };
}

// Takes verdicts and stops at the first refused hand.
#[derive(Drop)]
struct LegalPlays<T: HandVisitor + Drop> {
    visitor: T,
}

impl<T: HandVisitor + Drop> VerdictVisitor for LegalPlays<T> {
    ghost CONTINUES = { false };

    ghost KEEPS = { false };

    ghost Took = { λ start it verdicts.
        T.TookPlays start.visitor it.visitor (legal_plays verdicts) };

    fn continues(&self) -> bool {
        false
    }

    fn retains_plays(&self) -> bool {
        false
    }

    fn legal(
        &mut self,
        alloc: Global,
        place: HandIndex,
        play: &JudgedPlay<'_>,
    ) -> Result<(), Memory> {
        self.visitor.take_play(alloc, place, play)
    }

    fn refused(&mut self, _: Global, _: HandIndex, _: &Refusal) -> Result<(), Memory> {
        Ok(())
    }
}

/// The taker after it took the plays of these hands.
///
/// # Errors
///
/// The first refused hand, with what is wrong with it first; or out of memory.
pub fn take_plays<T: HandVisitor + Drop>(
    alloc: Global,
    visitor: T,
    records: SoundRecords,
) -> Result<T, PlaysFault>
    requires { T.TookPlays visitor visitor [] }
    ensures taken { IfOk result (λ it. HaveTaken (T.TookPlays visitor it) records) }
    ensures refused { IfErr result (IsPlaysFaultOf records) }
{
    let mut legal = LegalPlays { visitor };
    judge_all(alloc, &mut legal, records)?;
    Ok(legal.visitor)
}
