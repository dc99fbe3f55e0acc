//! Notes that differ, and notes that do not. Each function does nothing: its contract is computed
//! from the definitions.
ghost use Rattle.std.specs.Prelude.{◌≡◌, None, Some, codes};
ghost use Rattle.hand_differences.specs.FirstDifference.{Note, note_difference};
ghost use Rattle.hand_canon.specs.declared.notes.NoteName.TheVariants as names;
ghost use Rattle.worked_hands.specs.OtherTraces.{hand_named, three_noted};
ghost use Rattle.worked_hands.specs.WrittenNotes.{at_table, dated, named, no_notes, numbered, seated, timed};

/// The first note that differs is reported, in the order in which notes are named.
pub fn differing_notes()
    ensures a_name { note_difference (three_noted 0 no_notes)
        (three_noted 0 (named None (Some (codes "Ann")) None)) ≡ Some (Note names.Players) }
    ensures numbers { note_difference (three_noted 0 (numbered 1 2 4))
        (three_noted 0 (numbered 1 2 5)) ≡ Some (Note names.Seats) }
    ensures a_count { note_difference (three_noted 0 (seated 6)) (three_noted 0 no_notes)
        ≡ Some (Note names.SeatCount) }
    ensures a_hand { note_difference (three_noted 1 (hand_named (codes "0")))
        (three_noted 1 no_notes) ≡ Some (Note names.Hand) }
    ensures a_table { note_difference (three_noted 0 (at_table (codes "7")))
        (three_noted 0 (at_table (codes "8"))) ≡ Some (Note names.Table) }
    ensures a_month_before_a_day { note_difference
        (three_noted 0 (dated (Some 2020) (Some 1) (Some 2)))
        (three_noted 0 (dated (Some 2020) (Some 2) (Some 1))) ≡ Some (Note names.Month) }
    ensures a_time { note_difference (three_noted 0 (timed 1 2 3 4)) (three_noted 0 (timed 1 2 3 5))
        ≡ Some (Note names.Time) }
{}

/// A name of a hand that is its number counts as none, so do the usual numbers of seats, and names
/// of seats past the last are not looked at.
pub fn notes_that_are_no_other()
    ensures its_place { note_difference (three_noted 1 (hand_named (codes "1")))
        (three_noted 1 no_notes) ≡ None }
    ensures usual_numbers { note_difference (three_noted 0 (numbered 1 2 3))
        (three_noted 0 no_notes) ≡ None }
    ensures a_fourth_name { note_difference (three_noted 0 (named None None (Some (codes "Ann"))))
        (three_noted 0 no_notes) ≡ None }
{}
