//! What was written for plays reads back as these plays, proved over the definitions.
ghost use Rattle.std.specs.Prelude.{◌≡◌, ℕ, ◌≤◌, true, List, None, Ok, Some, length, map, sum_by};
ghost use Rattle.std.specs.List.{AllByRecursion};
ghost use Rattle.first_fault.specs.declared.limits.TheConstants.{MOST_FILE_MOVES, MOST_HANDS};
ghost use Rattle.hand_canon.specs.Sound.{IsSound};
ghost use Rattle.hand_canon.specs.declared.record.Record.{Record};
ghost use Rattle.hand_canon.specs.declared.trace.Play.{Play};
ghost use Rattle.hand_canon.specs.declared.writing.Keep.{Keep};
ghost use Rattle.hand_canon.specs.declared.writing.Unspelled.{Unspelled};
ghost use Rattle.ohh_members.specs.declared.dialect.Dialect.{Dialect};
ghost use Rattle.ohh_writing.specs.Lines.{Spells};
ghost use Rattle.ohh_writing.specs.Spelled.{unspelled};
ghost use Rattle.ohh_reading.specs.Reading.{reading};
ghost use Rattle.ohh_format.specs.Again.{hands_again};
ghost use Rattle.hand_canon.specs.Moves.{moves_played};
ghost use Rattle.hand_canon.specs.ReadAgain.{AreAgain};
ghost use Rattle.hand_canon.specs.SaidNotes.{KeepsNotes};
ghost use Rattle.ohh_format.specs.KeptNotes.{kept_in_ohh};
ghost use Rattle.ohh_format.specs.Sharp.{is_sharp};
ghost use Rattle.hand_canon.specs.Sharp.{IsOther};
ghost use Rattle.hand_canon.specs.WriteRefusals.{first_refusal};
ghost use Rattle.hand_canon.specs.PlainHands.{plain};

/// Take bytes that spell sound plays in a dialect, where plays and moves are within the limits of a
/// file and the format can write each play. Read in the same dialect, they are the hands of these
/// plays: with their setups and rakes, their canonical scripts in the words of the format, their
/// wins and the total of their pots, and their kept notes. The function does nothing: its contract
/// is a law.
pub fn law_of_reading_again()
    ensures { (dialect : Dialect) (keep : Keep) (plays : List Play) (bytes : List ℕ)
        → length plays ≤ MOST_HANDS → AllByRecursion IsSound plays
        → first_refusal (unspelled keep) plays ≡ None → sum_by moves_played plays ≤ MOST_FILE_MOVES
        → Spells dialect plays bytes → reading dialect bytes ≡ Ok (hands_again dialect 0 plays) }
{}

/// Take bytes that spell sound plays in a dialect, where plays and moves are within the limits of a
/// file and the format can write each play. Read in that dialect, they are the same number of
/// hands. One by one these are legal under the rules of hand histories, have the setups and the
/// whole traces of the plays, state nothing that differs, and have the kept notes. The function
/// does nothing: its contract is a law.
pub fn law_of_reading_back()
    ensures { (dialect : Dialect) (keep : Keep) (plays : List Play) (bytes : List ℕ)
        → length plays ≤ MOST_HANDS → AllByRecursion IsSound plays
        → first_refusal (unspelled keep) plays ≡ None → sum_by moves_played plays ≤ MOST_FILE_MOVES
        → Spells dialect plays bytes
        → (hands : List Record) → reading dialect bytes ≡ Ok (map plain hands)
        → AreAgain (KeepsNotes kept_in_ohh) 0 plays hands }
{}

/// If the format cannot write a fact of a play, other than a note, then no bytes are read, in a
/// dialect, as a legal hand with the trace of this play. (With a note that cannot be written, a
/// hand may still have that trace.) The function does nothing: its contract is a law.
pub fn law_of_sharpness()
    ensures { (dialect : Dialect) (keep : Keep) (play : Play) (fact : Unspelled)
        → unspelled keep play ≡ Some fact → is_sharp fact ≡ true
        → (bytes : List ℕ) (hands : List Record) → reading dialect bytes ≡ Ok (map plain hands)
        → AllByRecursion (IsOther play) hands }
{}
