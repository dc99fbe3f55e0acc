//! Laws of the first difference: which plays are the same hand, what follows from what is compared,
//! and where lists first differ.
ghost use Rattle.std.specs.Prelude.{◌≡◌, ◌↔◌, ◌++◌, ◌≤◌, ℕ, List, None, Some, [], false, length, true};
ghost use Rattle.hand_canon.specs.Sound.{IsSound};
ghost use Rattle.hand_differences.specs.FirstDifference.{reported_difference};
ghost use Rattle.hand_differences.specs.FirstNumbers.{DifferFirstAt, first_other_number};
ghost use Rattle.hand_differences.specs.SameParts.{is_same_move, is_same_place};
ghost use Rattle.hand_canon.specs.SameHands.{AreSameHand};
ghost use Rattle.hand_canon.specs.declared.trace.Play.{Play};
ghost use Rattle.play_event.specs.declared.played.Move.{Move};
ghost use Rattle.play_event.specs.declared.played.Place.{Place};

/// Two sound plays have no difference if and only if they have the same trace and, if notes are
/// compared, the same notes.
pub fn law_of_same_hands()
    ensures notes { (place : ℕ) (play other : Play) → IsSound play → IsSound other
        → (reported_difference true place play other ≡ None)
        ↔ AreSameHand (λ notes. notes) place play other }
    ensures traces { (place : ℕ) (play other : Play) → IsSound play → IsSound other
        → (reported_difference false place play other ≡ None) ↔ (play.trace ≡ other.trace) }
{}

/// Sound plays with the same setup, moves, dealt cards and shown seats have the same trace: who
/// mucked, the pots, the returned chips, the shares and the finishing stacks follow from these.
pub fn law_of_what_follows()
    ensures { (play other : Play) → IsSound play → IsSound other
        → play.trace.setup ≡ other.trace.setup → play.trace.moves ≡ other.trace.moves
        → play.trace.places ≡ other.trace.places → play.trace.shown ≡ other.trace.shown
        → play.trace ≡ other.trace }
{}

/// If two sound plays have the same setup, neither list of moves is a beginning of the other; and
/// if the moves are the same, neither list of dealt cards is. For what is due follows from the
/// setup and the moves, and how many cards come next follows from these and the discards so far.
pub fn law_of_beginnings()
    ensures moves { (play other : Play) → IsSound play → IsSound other
        → play.trace.setup ≡ other.trace.setup → (rest : List Move)
        → other.trace.moves ≡ play.trace.moves ++ rest → rest ≡ [] }
    ensures places { (play other : Play) → IsSound play → IsSound other
        → play.trace.setup ≡ other.trace.setup → play.trace.moves ≡ other.trace.moves
        → (rest : List Place) → other.trace.places ≡ play.trace.places ++ rest → rest ≡ [] }
{}

/// The number at which two lists of moves, or of dealt cards, first differ is the number at which
/// they differ and before which they are the same.
pub fn law_of_first_numbers()
    ensures moves { (played others : List Move) (number : ℕ)
        → (first_other_number is_same_move played others ≡ Some number)
        ↔ DifferFirstAt played others number }
    ensures places { (dealt others : List Place) (number : ℕ)
        → (first_other_number is_same_place dealt others ≡ Some number)
        ↔ DifferFirstAt dealt others number }
{}

/// If two sound plays have the same setup, both have the move that is reported to differ; and if
/// the moves are the same, both have the card that is reported to differ.
pub fn law_of_entries()
    ensures moves { (play other : Play) (number : ℕ) → IsSound play → IsSound other
        → play.trace.setup ≡ other.trace.setup
        → first_other_number is_same_move play.trace.moves other.trace.moves ≡ Some number
        → (number ≤ length play.trace.moves) × (number ≤ length other.trace.moves) }
    ensures places { (play other : Play) (number : ℕ) → IsSound play → IsSound other
        → play.trace.setup ≡ other.trace.setup → play.trace.moves ≡ other.trace.moves
        → first_other_number is_same_place play.trace.places other.trace.places ≡ Some number
        → (number ≤ length play.trace.places) × (number ≤ length other.trace.places) }
{}
