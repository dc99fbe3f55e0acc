//! Who brings in, and who opens a street, by up-cards. Each function does nothing: its contract is
//! computed from the rules.
ghost use Rattle.std.specs.Prelude.{[], codes, ◌∷◌, ◌≡◌};
ghost use Rattle.play_event.specs.declared.reason.Illegal.TheVariants.{WrongKind, WrongSeat, UpCardUnknown};
ghost use Rattle.worked_hands.specs.Outcomes.{AllLegal, IllegalAt, puts_after};
ghost use Rattle.worked_hands.specs.Setups.{ante_all_in, one_able, razz, stud};
ghost use Rattle.worked_hands.specs.Deals.{ace_and_deuce, deuce_and_unknown, king_and_deuce, two_deuces};
ghost use Rattle.worked_hands.specs.CardScripts.{brought_in, opened_by, razz_opened, without_chips};

/// The bring-in of stud and of razz.
pub fn bring_ins()
    ensures the_lowest_suit_brings_in { AllLegal stud (brought_in two_deuces 1) }
    ensures and_not_the_other_seat { IllegalAt 3 WrongSeat stud (brought_in two_deuces 2) }
    ensures its_size { puts_after stud (brought_in two_deuces 1) ≡ 2 ∷ 1 ∷ [] }
    ensures the_highest_card_brings_in_in_razz { AllLegal razz (brought_in king_and_deuce 1) }
    ensures where_the_ace_is_low { AllLegal razz (brought_in ace_and_deuce 2) }
    ensures an_unknown_up_card { IllegalAt 3 UpCardUnknown stud (brought_in deuce_and_unknown 1) }
    ensures a_seat_without_chips_may_not { IllegalAt 4 WrongSeat ante_all_in without_chips }
    ensures none_with_one_able_seat { IllegalAt 3 WrongKind one_able (brought_in two_deuces 2) }
{}

/// The best up-cards open a later street, in razz the lowest.
pub fn later_streets()
    ensures the_best_up_cards_open { AllLegal stud (opened_by 2 (codes "9h") (codes "2h")) }
    ensures of_even_ones_the_lower_seat { AllLegal stud (opened_by 1 (codes "9h") (codes "9s")) }
    ensures the_lowest_up_cards_open_in_razz { AllLegal razz razz_opened }
{}
