//! How hands end: shows, mucks, the showdown, and scripts that stop too early or go on too long.
//! Each function does nothing: its contract is computed from the rules.
ghost use Rattle.std.specs.Prelude.{[], codes, false, ◌∷◌, ◌≡◌};
ghost use Rattle.play_event.specs.declared.reason.Due.TheVariants as dues;
ghost use Rattle.play_event.specs.declared.reason.Illegal.TheVariants.{HandOver, WrongKind, WrongSeat, WrongCount, CardTaken, NotHeld};
ghost use Rattle.play_event.specs.Scripts.{has_early_end};
ghost use Rattle.worked_hands.specs.Outcomes.{AllLegal, IllegalAt, due_after, puts_after};
ghost use Rattle.worked_hands.specs.Setups.{antes_and_blinds, heads_up, no_limit, stud_short};
ghost use Rattle.worked_hands.specs.ShowScripts.{board_card_shown, checked_down, deuce_left_out, early_shows, folder_mucks, mucked_called, other_hand_shown, shown_and_mucked, shown_called, shown_uncalled, three_shown, winner_does_both, winner_mucks, winner_shows};

/// A hand that is checked down, and its shows.
pub fn showdowns()
    ensures a_hand_checked_down { AllLegal no_limit checked_down }
    ensures its_chips { puts_after no_limit checked_down ≡ 1 ∷ 2 ∷ 2 ∷ [] }
    ensures its_showdown { due_after no_limit checked_down ≡ (4, dues.Show) }
    ensures it_may_end_there { has_early_end no_limit checked_down ≡ false }
    ensures a_card_of_the_board { IllegalAt 16 CardTaken no_limit board_card_shown }
    ensures which_comes_before_a_card_left_out { IllegalAt 16 CardTaken no_limit deuce_left_out }
    ensures another_hand { IllegalAt 16 NotHeld no_limit other_hand_shown }
    ensures a_muck_after_a_show { IllegalAt 17 WrongSeat no_limit shown_and_mucked }
{}

/// Shows and mucks before the last card, in a hand without further betting.
pub fn shows_before_the_end()
    ensures shows_before_the_river { AllLegal antes_and_blinds early_shows }
    ensures its_chips { puts_after antes_and_blinds early_shows ≡ 1125600 ∷ 2500 ∷ 553500 ∷ [] }
    ensures all_have_shown { due_after antes_and_blinds early_shows ≡ (4, dues.Over) }
    ensures a_show_after_the_call { AllLegal heads_up shown_called }
    ensures not_before_the_call { IllegalAt 4 WrongKind heads_up shown_uncalled }
    ensures a_muck_waits_for_the_showdown { IllegalAt 5 WrongKind heads_up mucked_called }
    ensures down_cards_alone { AllLegal stud_short (three_shown (codes "5h")) }
    ensures not_with_an_unknown_up { IllegalAt 13 WrongCount stud_short (three_shown (codes "??")) }
{}

/// The show or muck of the last live seat, and the end of a hand.
pub fn last_seats()
    ensures the_last_seat_shows { AllLegal no_limit winner_shows }
    ensures or_mucks { AllLegal no_limit winner_mucks }
    ensures once { IllegalAt 8 HandOver no_limit winner_does_both }
    ensures and_no_other_seat { IllegalAt 7 HandOver no_limit folder_mucks }
{}
