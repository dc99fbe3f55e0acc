//! Notes of hands with three seats, allowed ones and others. Each function does nothing: its
//! contract is computed from the definition of allowed notes.
ghost use Rattle.std.specs.Prelude.{[], codes, None, Some, replicate};
ghost use Rattle.hand_canon.specs.AllowedNotes.{AreAllowed};
ghost use Rattle.worked_hands.specs.WrittenNotes.{at_table, dated, named, no_notes, numbered, seated, timed};

/// A text has 1 to 255 bytes.
pub fn texts()
    ensures nothing { AreAllowed 3 no_notes }
    ensures a_byte { AreAllowed 3 (at_table (codes "7")) }
    ensures bytes_255 { AreAllowed 3 (at_table (replicate 255 65)) }
    ensures no_byte { ¬ (AreAllowed 3 (at_table [])) }
    ensures bytes_256 { ¬ (AreAllowed 3 (at_table (replicate 256 65))) }
{}

/// No note equals its default: the second seat is `p2`, seats are numbered from 1, and a table has
/// as many seats as the hand. Seats past those of the hand have no names.
pub fn players()
    ensures two_names { AreAllowed 3 (named (Some (codes "p2")) (Some (codes "P2")) None) }
    ensures the_default_name { ¬ (AreAllowed 3 (named None (Some (codes "p2")) None)) }
    ensures a_name_past_the_last_seat { ¬ (AreAllowed 3 (named None None (Some (codes "Ann")))) }
    ensures seats_from_255 { AreAllowed 3 (numbered 255 1 2) }
    ensures the_default_numbers { ¬ (AreAllowed 3 (numbered 1 2 3)) }
    ensures no_seat { ¬ (AreAllowed 3 (numbered 1 2 0)) }
    ensures a_seat_of_256 { ¬ (AreAllowed 3 (numbered 1 2 256)) }
    ensures a_table_for_ten { AreAllowed 3 (seated 10) }
    ensures the_default_count { ¬ (AreAllowed 3 (seated 3)) }
    ensures a_table_for_none { ¬ (AreAllowed 3 (seated 0)) }
{}

/// A complete date is one of the calendar; a part of a date is within its range.
pub fn dates()
    ensures leap_day_of_2024 { AreAllowed 3 (dated (Some 2024) (Some 2) (Some 29)) }
    ensures leap_day_of_2000 { AreAllowed 3 (dated (Some 2000) (Some 2) (Some 29)) }
    ensures no_leap_day_in_2023 { ¬ (AreAllowed 3 (dated (Some 2023) (Some 2) (Some 29))) }
    ensures no_leap_day_in_1900 { ¬ (AreAllowed 3 (dated (Some 1900) (Some 2) (Some 29))) }
    ensures no_31_of_april { ¬ (AreAllowed 3 (dated (Some 2024) (Some 4) (Some 31))) }
    ensures without_a_year { AreAllowed 3 (dated None (Some 4) (Some 31)) }
    ensures no_month_13 { ¬ (AreAllowed 3 (dated None (Some 13) None)) }
    ensures no_day_32 { ¬ (AreAllowed 3 (dated None None (Some 32))) }
    ensures no_year_0 { ¬ (AreAllowed 3 (dated (Some 0) None None)) }
    ensures no_year_10000 { ¬ (AreAllowed 3 (dated (Some 10000) None None)) }
{}

/// A day ends a nanosecond after 23:59:59.999999999.
pub fn times()
    ensures the_last_moment { AreAllowed 3 (timed 23 59 59 999999999) }
    ensures no_hour_24 { ¬ (AreAllowed 3 (timed 24 0 0 0)) }
    ensures no_minute_60 { ¬ (AreAllowed 3 (timed 0 60 0 0)) }
    ensures no_leap_second { ¬ (AreAllowed 3 (timed 23 59 60 0)) }
    ensures no_whole_second_of_nanoseconds { ¬ (AreAllowed 3 (timed 0 0 0 1000000000)) }
{}
