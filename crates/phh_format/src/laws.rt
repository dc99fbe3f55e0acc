//! What was written for plays reads back as these plays, proved over the definitions.
ghost use Rattle.std.specs.Prelude.{◌≡◌, ℕ, ◌≤◌, List, length, map, sum_by, None, Ok, Some};
ghost use Rattle.std.specs.List.{AllByRecursion};
ghost use Rattle.first_fault.specs.declared.limits.TheConstants.{MOST_FILE_MOVES, MOST_HANDS};
ghost use Rattle.hand_canon.specs.declared.record.Record.{Record};
ghost use Rattle.hand_canon.specs.declared.trace.Play.{Play};
ghost use Rattle.hand_canon.specs.declared.writing.Unspelled.{Unspelled};
ghost use Rattle.hand_canon.specs.Sound.{IsSound};
ghost use Rattle.phh_reading.specs.Reading.{reading};
ghost use Rattle.phh_format.specs.Document.{Spells};
ghost use Rattle.phh_format.specs.Spelled.{unspelled};
ghost use Rattle.phh_format.specs.Again.{hands_again};
ghost use Rattle.hand_canon.specs.Moves.{moves_played};
ghost use Rattle.hand_canon.specs.ReadAgain.{AreAgain};
ghost use Rattle.hand_canon.specs.SaidNotes.{KeepsNotes};
ghost use Rattle.phh_format.specs.KeptNotes.{kept_in_phh};
ghost use Rattle.hand_canon.specs.Sharp.{IsOther};
ghost use Rattle.hand_canon.specs.WriteRefusals.{first_refusal};
ghost use Rattle.hand_canon.specs.PlainHands.{plain};

/// Take bytes that spell sound plays, where plays and moves are within the limits of a file. They
/// read as the hands of these plays: with their setups, rakes and finishing stacks, their canonical
/// scripts, and their kept notes. The function does nothing: its contract is a law.
pub fn law_of_reading_again()
    ensures { (plays : List Play) (bytes : List ℕ)
        → length plays ≤ MOST_HANDS → AllByRecursion IsSound plays
        → sum_by moves_played plays ≤ MOST_FILE_MOVES
        → Spells plays bytes → reading bytes ≡ Ok (hands_again 0 plays) }
{}

/// Take bytes that spell sound plays, where plays and moves are within the limits of a file. They
/// read as the same number of hands, which are legal under the rules of hand histories, have the
/// whole traces of the plays, state nothing that differs, and have all notes. This holds if the
/// format can write the plays: no raise in them is closed. The function does nothing: its contract
/// is a law.
pub fn law_of_reading_back()
    ensures { (plays : List Play) (bytes : List ℕ)
        → length plays ≤ MOST_HANDS → AllByRecursion IsSound plays
        → sum_by moves_played plays ≤ MOST_FILE_MOVES
        → first_refusal unspelled plays ≡ None → Spells plays bytes
        → (hands : List Record) → reading bytes ≡ Ok (map plain hands)
        → AreAgain (KeepsNotes kept_in_phh) 0 plays hands }
{}

/// If the format cannot write a play, then no bytes hold it: no hand that is read from any bytes is
/// legal with the trace of the play. The function does nothing: its contract is a law.
pub fn law_of_sharpness()
    ensures { (play : Play) (fact : Unspelled) → unspelled play ≡ Some fact
        → (bytes : List ℕ) (hands : List Record) → reading bytes ≡ Ok (map plain hands)
        → AllByRecursion (IsOther play) hands }
{}
