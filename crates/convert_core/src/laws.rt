//! Laws of conversion: outcomes are unique, no note is forgotten, what a notation cannot express no
//! file of it says, and equal hands give equal outputs.
ghost use Rattle.std.specs.Prelude.{◌≡◌, ◌<◌, ◌↔◌, ℕ, true, List, None, Ok, Some, Result, map};
ghost use Rattle.std.specs.List.{AllByRecursion};
ghost use Rattle.hand_canon.specs.SaidNotes.{notes_of};
ghost use Rattle.hand_canon.specs.SameHands.{AreSameHands, kept_notes};
ghost use Rattle.hand_canon.specs.declared.record.Record.{Record};
ghost use Rattle.hand_canon.specs.declared.trace.Play.{Play};
ghost use Rattle.hand_canon.specs.declared.writing.Keep.TheVariants as keeps;
ghost use Rattle.hand_canon.specs.declared.writing.Unspelled.{Unspelled};
ghost use Rattle.convert_core.specs.Answers.{Answers};
ghost use Rattle.convert_core.specs.Conversion.{HasUnspelled, ReadAsPlays, ReadAsRefused, RefusesNothing};
ghost use Rattle.convert_core.specs.Judged.{ArePlaysOf, IsFirstRefused};
ghost use Rattle.convert_core.specs.NoteParts.{ArePartOf};
ghost use Rattle.convert_core.specs.ReadOrFail.{ReadOrFail};
ghost use Rattle.convert_core.specs.SameAnswers.{AreSameAnswers};
ghost use Rattle.hand_canon.specs.Sharp.{IsOther, is_sharp};
ghost use Rattle.hand_canon.specs.Sound.{IsSound};
ghost use Rattle.first_fault.specs.declared.limits.TheConstants.{MOST_HANDS};
ghost use Rattle.convert_core.specs.Verdicts.{AreVerdictsOn, IsFirstNotLegal, Legal, Verdict};
ghost use Rattle.convert_core.specs.declared.convert_fault.ConvertFault.{ConvertFault};
ghost use Rattle.convert_core.specs.declared.refusal.Refusal.{Refusal};
ghost use Rattle.convert_core.specs.declared.format_fault.FormatFault.{FormatFault};
ghost use Rattle.hand_canon.specs.WriteRefusals.{first_refusal};

use crate::notation::Notation;
use hand_canon::Keep;

/// Records have at most one list of plays and at most one first refused hand, refused for one
/// reason; and never both. The function does nothing: its contract is a law.
pub fn law_of_one_outcome()
    ensures plays { (records : List Record) (plays others : List Play)
        → ArePlaysOf records plays → ArePlaysOf records others → plays ≡ others }
    ensures refused { (records : List Record) (number other : ℕ) (why reason : Refusal)
        → IsFirstRefused records number why → IsFirstRefused records other reason
        → (number ≡ other) × (why ≡ reason) }
    ensures either { (records : List Record) (plays : List Play) (number : ℕ) (why : Refusal)
        → ArePlaysOf records plays → IsFirstRefused records number why → ⊥ }
{}

/// The verdicts on hands are their plays if and only if all hands are legal; and the first verdict
/// that is a refusal is on the first refused hand, with the same cause. So `check` succeeds if and
/// only if `judge` reports every hand as legal, and otherwise names the first hand that `judge`
/// reports as refused. The function does nothing: its contract is a law.
pub fn law_of_verdicts()
    ensures legal { (records : List Record) (verdicts : List Verdict) (plays : List Play)
        → AreVerdictsOn records verdicts
        → ArePlaysOf records plays ↔ (verdicts ≡ map Legal plays) }
    ensures refused { (records : List Record) (verdicts : List Verdict) (number : ℕ)
        → (why : Refusal) → AreVerdictsOn records verdicts
        → IsFirstRefused records number why ↔ IsFirstNotLegal verdicts number why }
{}

/// Bytes have one outcome. They read as one number of hands or have one fault, and not both. If
/// they read as hands, then either one hand is the first refused, for one reason, or all have their
/// plays. If all have their plays, then either one hand is the first with a fact to be kept that
/// the target cannot express, and that fact is unique, or the target can express all. The function
/// does nothing: its contract is a law.
pub fn law_of_one_conversion<N: Notation, M: Notation>(from: &N, to: &M, keep: Keep)
    ensures read_or_fail { (bytes : List ℕ) → ReadOrFail ((N.meaning from.now).ReadAsHands bytes)
        ((N.meaning from.now).HaveFault bytes) }
    ensures unread { (bytes : List ℕ) (records : List Record) (fault : FormatFault)
        → (N.meaning from.now).Say bytes records → (N.meaning from.now).HaveFault bytes fault → ⊥ }
    ensures refused { (bytes : List ℕ) (number other : ℕ) (why reason : Refusal)
        → ReadAsRefused ((N.meaning from.now).Say bytes) number why
        → ReadAsRefused ((N.meaning from.now).Say bytes) other reason
        → (number ≡ other) × (why ≡ reason) }
    ensures played { (bytes : List ℕ) (number : ℕ) (why : Refusal) (plays : List Play)
        → ReadAsRefused ((N.meaning from.now).Say bytes) number why
        → ReadAsPlays ((N.meaning from.now).Say bytes) plays → ⊥ }
    ensures unspelled { (bytes : List ℕ) (number other : ℕ) (fact too : Unspelled)
        → HasUnspelled ((N.meaning from.now).Say bytes) ((M.meaning to.now).unspelled keep)
        number fact
        → HasUnspelled ((N.meaning from.now).Say bytes) ((M.meaning to.now).unspelled keep)
        other too
        → (number ≡ other) × (fact ≡ too) }
    ensures spelled { (bytes : List ℕ) (number : ℕ) (fact : Unspelled) (plays : List Play)
        → HasUnspelled ((N.meaning from.now).Say bytes) ((M.meaning to.now).unspelled keep)
        number fact
        → ReadAsPlays ((N.meaning from.now).Say bytes) plays
        → first_refusal ((M.meaning to.now).unspelled keep) plays ≡ None → ⊥ }
{}

/// If the bytes read as hands, all are legal and agree with what is stated of them, and the target
/// can express each fact to be kept, then they are converted, unless memory runs out. The function
/// does nothing: its contract is a law.
pub fn law_of_legal_conversions<N: Notation, M: Notation>(from: &N, to: &M, keep: Keep)
    ensures { (bytes : List ℕ) (plays : List Play) (answer : Result (List ℕ) ConvertFault)
        → ReadAsPlays ((N.meaning from.now).Say bytes) plays
        → first_refusal ((M.meaning to.now).unspelled keep) plays ≡ None
        → Answers (N.meaning from.now) (M.meaning to.now) keep bytes answer
        → RefusesNothing answer }
{}

/// No note is forgotten, and none is made up. If the notation can express everything in a play, all
/// its notes are kept. Of any play a part of the notes is kept, and it includes every part that the
/// notation can express whole. The function does nothing: its contract is a law.
pub fn law_of_kept_notes<N: Notation>(notation: &N)
    ensures all { (place : ℕ) (play : Play) → place < MOST_HANDS → IsSound play
        → (N.meaning notation.now).unspelled keeps.All play ≡ None
        → (N.meaning notation.now).kept (notes_of place play) ≡ notes_of place play }
    ensures part { (place : ℕ) (play : Play)
        → ArePartOf ((N.meaning notation.now).kept (notes_of place play)) (notes_of place play) }
    ensures most { (place : ℕ) (play part : Play) → place < MOST_HANDS → IsSound part
        → ArePartOf (notes_of place part) (notes_of place play)
        → (N.meaning notation.now).unspelled keeps.All part ≡ None
        → ArePartOf (notes_of place part) ((N.meaning notation.now).kept (notes_of place play)) }
{}

/// What a notation is said not to express, no file of it says. If a play has such a fact, other
/// than an odd chip or a note, then no hand in any file of the notation is legal with the trace of
/// the play. The function does nothing: its contract is a law.
pub fn law_of_sharpness<N: Notation>(notation: &N, keep: Keep)
    ensures { (play : Play) (fact : Unspelled)
        → (N.meaning notation.now).unspelled keep play ≡ Some fact → is_sharp fact ≡ true
        → (bytes : List ℕ) (hands : List Record) → (N.meaning notation.now).Say bytes hands
        → AllByRecursion (IsOther play) hands }
{}

/// Equal outputs come from equal hands. If two inputs, in any notations, are converted to one
/// notation with the same choice of notes, their outputs are equal if and only if their hands have
/// the same traces and the same kept notes, hand by hand. The function does nothing: its contract
/// is a law.
pub fn law_of_equal_outputs<A: Notation, B: Notation, N: Notation>(
    from: &A,
    other: &B,
    to: &N,
    keep: Keep,
)
    ensures { (bytes too output written : List ℕ) (plays others : List Play)
        → ReadAsPlays ((A.meaning from.now).Say bytes) plays
        → ReadAsPlays ((B.meaning other.now).Say too) others
        → Answers (A.meaning from.now) (N.meaning to.now) keep bytes (Ok output)
        → Answers (B.meaning other.now) (N.meaning to.now) keep too (Ok written)
        → AreSameHands (kept_notes keep (N.meaning to.now).kept) plays others
        ↔ (N.meaning to.now).AreSame output written }
{}

/// Converting an output to its own notation gives the same output, whichever notes are kept then,
/// unless memory runs out. The function does nothing: its contract is a law.
pub fn law_of_converting_again<A: Notation, N: Notation>(from: &A, to: &N, keep: Keep, again: Keep)
    ensures { (bytes output : List ℕ) (answer : Result (List ℕ) ConvertFault)
        → Answers (A.meaning from.now) (N.meaning to.now) keep bytes (Ok output)
        → Answers (N.meaning to.now) (N.meaning to.now) again output answer
        → AreSameAnswers (N.meaning to.now).AreSame (Ok output) answer }
{}

/// A conversion may go by way of another notation. If bytes are converted with all notes, then
/// converting the output to a third notation has the same result as converting the bytes to it,
/// with either choice of notes: the same output, or the same hand and its same fact that cannot be
/// expressed; unless memory runs out. The function does nothing: its contract is a law.
pub fn law_of_converting_by_way<A: Notation, B: Notation, C: Notation>(
    from: &A,
    by: &B,
    to: &C,
    keep: Keep,
)
    ensures { (bytes output : List ℕ) (first second : Result (List ℕ) ConvertFault)
        → Answers (A.meaning from.now) (B.meaning by.now) keeps.All bytes (Ok output)
        → Answers (A.meaning from.now) (C.meaning to.now) keep bytes first
        → Answers (B.meaning by.now) (C.meaning to.now) keep output second
        → AreSameAnswers (C.meaning to.now).AreSame first second }
{}
