//! The promises about all conversions, over any notations, stated once more: without these laws
//! this crate does not prove.
ghost use Rattle.std.specs.Prelude.{◌≡◌, ◌<◌, ◌↔◌, ℕ, List, None, Ok, Result, map};
ghost use Rattle.convert_core.specs.Answers.{Answers};
ghost use Rattle.convert_core.specs.Conversion.{HasUnspelled, ReadAsPlays, ReadAsRefused, RefusesNothing};
ghost use Rattle.convert_core.specs.Judged.{ArePlaysOf, IsFirstRefused};
ghost use Rattle.convert_core.specs.NoteParts.{ArePartOf};
ghost use Rattle.convert_core.specs.ReadOrFail.{ReadOrFail};
ghost use Rattle.convert_core.specs.SameAnswers.{AreSameAnswers};
ghost use Rattle.convert_core.specs.Verdicts.{AreVerdictsOn, IsFirstNotLegal, Legal, Verdict};
ghost use Rattle.convert_core.specs.declared.convert_fault.ConvertFault.{ConvertFault};
ghost use Rattle.convert_core.specs.declared.format_fault.FormatFault.{FormatFault};
ghost use Rattle.convert_core.specs.declared.refusal.Refusal.{Refusal};
ghost use Rattle.first_fault.specs.declared.limits.TheConstants.{MOST_HANDS};
ghost use Rattle.hand_canon.specs.Sound.{IsSound};
ghost use Rattle.hand_canon.specs.SaidNotes.{notes_of};
ghost use Rattle.hand_canon.specs.SameHands.{AreSameHands, kept_notes};
ghost use Rattle.hand_canon.specs.WriteRefusals.{first_refusal};
ghost use Rattle.hand_canon.specs.declared.record.Record.{Record};
ghost use Rattle.hand_canon.specs.declared.trace.Play.{Play};
ghost use Rattle.hand_canon.specs.declared.writing.Keep.TheVariants as keeps;
ghost use Rattle.hand_canon.specs.declared.writing.Unspelled.{Unspelled};

use convert_core::{
    Notation, law_of_converting_again, law_of_converting_by_way, law_of_equal_outputs,
    law_of_kept_notes, law_of_legal_conversions, law_of_one_conversion, law_of_one_outcome,
    law_of_verdicts,
};
use hand_canon::Keep;

/// Records have one list of plays, or one first refused hand.
pub fn outcome_is_one()
    ensures plays { (records : List Record) (plays others : List Play)
        → ArePlaysOf records plays → ArePlaysOf records others → plays ≡ others }
    ensures refused { (records : List Record) (number other : ℕ) (why reason : Refusal)
        → IsFirstRefused records number why → IsFirstRefused records other reason
        → (number ≡ other) × (why ≡ reason) }
    ensures either { (records : List Record) (plays : List Play) (number : ℕ) (why : Refusal)
        → ArePlaysOf records plays → IsFirstRefused records number why → ⊥ }
{
    law_of_one_outcome();
}

/// All verdicts are legal if and only if there are plays; else the first verdict that is not legal
/// is on the first refused hand.
pub fn verdicts_are_the_plays()
    ensures legal { (records : List Record) (verdicts : List Verdict) (plays : List Play)
        → AreVerdictsOn records verdicts
        → ArePlaysOf records plays ↔ (verdicts ≡ map Legal plays) }
    ensures refused { (records : List Record) (verdicts : List Verdict) (number : ℕ)
        → (why : Refusal) → AreVerdictsOn records verdicts
        → IsFirstRefused records number why ↔ IsFirstNotLegal verdicts number why }
{
    law_of_verdicts();
}

/// Bytes have one conversion.
pub fn conversion_is_one<N: Notation, M: Notation>(from: &N, to: &M, keep: Keep)
    ensures read_or_fail { (bytes : List ℕ) → ReadOrFail ((N.meaning from.now).ReadAsHands bytes)
        ((N.meaning from.now).HaveFault bytes) }
    ensures unread { (bytes : List ℕ) (records : List Record) (fault : FormatFault)
        → (N.meaning from.now).Say bytes records → (N.meaning from.now).HaveFault bytes fault → ⊥ }
    ensures refused { (bytes : List ℕ) (number other : ℕ) (why reason : Refusal)
        → ReadAsRefused ((N.meaning from.now).Say bytes) number why
        → ReadAsRefused ((N.meaning from.now).Say bytes) other reason
        → (number ≡ other) × (why ≡ reason) }
    ensures played { (bytes : List ℕ) (number : ℕ) (why : Refusal) (plays : List Play)
        → ReadAsRefused ((N.meaning from.now).Say bytes) number why
        → ReadAsPlays ((N.meaning from.now).Say bytes) plays → ⊥ }
    ensures unspelled { (bytes : List ℕ) (number other : ℕ) (fact too : Unspelled)
        → HasUnspelled ((N.meaning from.now).Say bytes) ((M.meaning to.now).unspelled keep)
        number fact
        → HasUnspelled ((N.meaning from.now).Say bytes) ((M.meaning to.now).unspelled keep)
        other too
        → (number ≡ other) × (fact ≡ too) }
    ensures spelled { (bytes : List ℕ) (number : ℕ) (fact : Unspelled) (plays : List Play)
        → HasUnspelled ((N.meaning from.now).Say bytes) ((M.meaning to.now).unspelled keep)
        number fact
        → ReadAsPlays ((N.meaning from.now).Say bytes) plays
        → first_refusal ((M.meaning to.now).unspelled keep) plays ≡ None → ⊥ }
{
    law_of_one_conversion(from, to, keep);
}

/// Legal hands are converted if all their facts can be written, unless memory runs out.
pub fn legal_hands_are_converted<N: Notation, M: Notation>(from: &N, to: &M, keep: Keep)
    ensures { (bytes : List ℕ) (plays : List Play) (answer : Result (List ℕ) ConvertFault)
        → ReadAsPlays ((N.meaning from.now).Say bytes) plays
        → first_refusal ((M.meaning to.now).unspelled keep) plays ≡ None
        → Answers (N.meaning from.now) (M.meaning to.now) keep bytes answer
        → RefusesNothing answer }
{
    law_of_legal_conversions(from, to, keep);
}

/// No note is dropped, and none is made up.
pub fn notes_are_kept<N: Notation>(notation: &N)
    ensures all { (place : ℕ) (play : Play) → place < MOST_HANDS → IsSound play
        → (N.meaning notation.now).unspelled keeps.All play ≡ None
        → (N.meaning notation.now).kept (notes_of place play) ≡ notes_of place play }
    ensures part { (place : ℕ) (play : Play)
        → ArePartOf ((N.meaning notation.now).kept (notes_of place play)) (notes_of place play) }
    ensures most { (place : ℕ) (play part : Play) → place < MOST_HANDS → IsSound part
        → ArePartOf (notes_of place part) (notes_of place play)
        → (N.meaning notation.now).unspelled keeps.All part ≡ None
        → ArePartOf (notes_of place part) ((N.meaning notation.now).kept (notes_of place play)) }
{
    law_of_kept_notes(notation);
}

/// Equal outputs come from equal hands.
pub fn equal_outputs_are_of_equal_hands<A: Notation, B: Notation, N: Notation>(
    from: &A,
    other: &B,
    to: &N,
    keep: Keep,
)
    ensures { (bytes too output written : List ℕ) (plays others : List Play)
        → ReadAsPlays ((A.meaning from.now).Say bytes) plays
        → ReadAsPlays ((B.meaning other.now).Say too) others
        → Answers (A.meaning from.now) (N.meaning to.now) keep bytes (Ok output)
        → Answers (B.meaning other.now) (N.meaning to.now) keep too (Ok written)
        → AreSameHands (kept_notes keep (N.meaning to.now).kept) plays others
        ↔ (N.meaning to.now).AreSame output written }
{
    law_of_equal_outputs(from, other, to, keep);
}

/// An output converts to its own notation unchanged.
pub fn output_converts_to_itself<A: Notation, N: Notation>(
    from: &A,
    to: &N,
    keep: Keep,
    again: Keep,
)
    ensures { (bytes output : List ℕ) (answer : Result (List ℕ) ConvertFault)
        → Answers (A.meaning from.now) (N.meaning to.now) keep bytes (Ok output)
        → Answers (N.meaning to.now) (N.meaning to.now) again output answer
        → AreSameAnswers (N.meaning to.now).AreSame (Ok output) answer }
{
    law_of_converting_again(from, to, keep, again);
}

/// A conversion with all notes may go through another notation.
pub fn way_of_a_conversion_is_free<A: Notation, B: Notation, C: Notation>(
    from: &A,
    by: &B,
    to: &C,
    keep: Keep,
)
    ensures { (bytes output : List ℕ) (first second : Result (List ℕ) ConvertFault)
        → Answers (A.meaning from.now) (B.meaning by.now) keeps.All bytes (Ok output)
        → Answers (A.meaning from.now) (C.meaning to.now) keep bytes first
        → Answers (B.meaning by.now) (C.meaning to.now) keep output second
        → AreSameAnswers (C.meaning to.now).AreSame first second }
{
    law_of_converting_by_way(from, by, to, keep);
}
