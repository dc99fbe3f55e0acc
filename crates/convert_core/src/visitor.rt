//! A visitor of the verdicts on hands.
ghost use Rattle.std.specs.Prelude.{◌≡◌, ◌++◌, [], ◌∷◌, Bool, true, List, length, OnOk};
ghost use Rattle.convert_core.specs.Judged.{IsRefusedFor};
ghost use Rattle.hand_canon.specs.declared.record.Record.{Record as AnyRecord};
ghost use Rattle.convert_core.specs.Taking.{HasTaken};
ghost use Rattle.convert_core.specs.Verdicts.{AreLegalUnless, Legal, Refused, Verdict};

use crate::judged_play::{HandIndex, JudgedPlay};
use crate::refusal::Refusal;
use card_set::Memory;
use std::alloc::Global;

/// Visits the verdicts on the hands of a file, in their order.
pub trait VerdictVisitor {
    /// Whether it visits the verdicts on refused hands and continues after them; otherwise the
    /// first refused hand is the last.
    ghost CONTINUES: { Bool };

    /// Whether the plays are to be retained; otherwise each is dropped before the next is made.
    ghost KEEPS: { Bool };

    /// What holds between a visitor before and after it has visited these verdicts.
    ghost Took: { Self → Self → List Verdict → Type 0 };

    /// Whether it continues after a refused hand.
    fn continues(&self) -> bool
        ensures { result ≡ CONTINUES };

    /// Whether the plays are to be retained.
    fn retains_plays(&self) -> bool
        ensures { result ≡ KEEPS };

    /// Visits a legal hand at its place in the file, from 0.
    ///
    /// # Errors
    ///
    /// Out of memory.
    fn legal(
        &mut self,
        alloc: Global,
        place: HandIndex,
        play: &JudgedPlay<'_>,
    ) -> Result<(), Memory>
        requires { (start : Self) × HasTaken (Took start self.old) place.index }
        ensures { (start : Self) (before : List Verdict) → length before ≡ place.index
            → AreLegalUnless CONTINUES before → Took start self.old before
            → OnOk result (Took start self.new (before ++ Legal play.now ∷ [])) };

    /// Visits a refused hand at its place in the file, from 0, with its first fault. It is called
    /// only if the visitor continues after refused hands.
    ///
    /// # Errors
    ///
    /// Out of memory.
    fn refused(&mut self, alloc: Global, place: HandIndex, why: &Refusal) -> Result<(), Memory>
        requires { (start : Self) × HasTaken (Took start self.old) place.index }
        ensures { (start : Self) (before : List Verdict) (hand : AnyRecord) → CONTINUES ≡ true
            → length before ≡ place.index → IsRefusedFor hand why.now → Took start self.old before
            → OnOk result (Took start self.new (before ++ Refused hand why.now ∷ [])) };
}
