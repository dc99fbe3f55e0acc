//! How differences are reported.
ghost use Rattle.std.specs.Prelude.{◌≡◌, None, Some, codes};
ghost use Rattle.hand_differences.specs.DifferenceText.{difference_text};
ghost use Rattle.hand_differences.specs.FirstDifference.{Antes, BetSizes, Blinds, Card, Move, Note, Rake, SeatCount, Shown, Stacks, Variant};
ghost use Rattle.hand_canon.specs.declared.notes.NoteName.TheVariants as names;

/// Each kind of difference in its words. The function does nothing: its contract is computed from
/// the definition.
pub fn printed_differences()
    ensures variant { difference_text Variant ≡ codes "Variant" }
    ensures seat_count { difference_text SeatCount ≡ codes "SeatCount" }
    ensures stacks { difference_text Stacks ≡ codes "Stacks" }
    ensures sizes { difference_text BetSizes ≡ codes "BetSizes" }
    ensures antes { difference_text Antes ≡ codes "Antes" }
    ensures blinds { difference_text Blinds ≡ codes "Blinds" }
    ensures rake { difference_text Rake ≡ codes "Rake" }
    ensures a_move { difference_text (Move 12 3 10) ≡ codes "move 12, street 3, p10" }
    ensures a_card { difference_text (Card 7 1 (Some 2)) ≡ codes "card 7, street 1, p2" }
    ensures a_board_card { difference_text (Card 9 2 None) ≡ codes "card 9, street 2, board" }
    ensures shown { difference_text (Shown 3) ≡ codes "shown p3" }
    ensures a_note { difference_text (Note names.TimeZone) ≡ codes "Note time_zone" }
{}
