//! Deals, draws, and cards that are already taken or not held. Each function does nothing: its
//! contract is computed from the rules.
ghost use Rattle.std.specs.Prelude.{codes};
ghost use Rattle.play_event.specs.declared.reason.Illegal.TheVariants.{WrongKind, WrongSeat, WrongCount, CardTaken, NotHeld};
ghost use Rattle.worked_hands.specs.Outcomes.{AllLegal, IllegalAt};
ghost use Rattle.worked_hands.specs.Setups.{draw_short, heads_up, no_limit, single_draw, triple_draw};
ghost use Rattle.worked_hands.specs.CardScripts.{ace_dealt_twice, all_in_draws, dealt, dealt_after_pat, dealt_again, discarded, early_flop, flop_of, fold_before_deals, kept_cards_shown, second_draw, third_card};

/// How many cards are dealt, when, and to whom.
pub fn deals()
    ensures a_third_hole_card { IllegalAt 1 WrongCount no_limit (dealt 1 (codes "??????")) }
    ensures a_misspelled_card { IllegalAt 1 WrongCount no_limit (dealt 1 (codes "AhXh")) }
    ensures a_seat_dealt_twice { IllegalAt 2 WrongSeat no_limit dealt_again }
    ensures a_seat_that_is_not_there { IllegalAt 1 WrongSeat no_limit (dealt 4 (codes "????")) }
    ensures a_card_dealt_twice { IllegalAt 2 CardTaken no_limit ace_dealt_twice }
    ensures a_move_before_the_deals { IllegalAt 2 WrongKind no_limit fold_before_deals }
    ensures a_board_before_its_street { IllegalAt 4 WrongKind no_limit early_flop }
    ensures a_hole_card_in_place_of_the_board { IllegalAt 5 WrongKind heads_up third_card }
    ensures a_board_of_three_cards { AllLegal heads_up (flop_of (codes "AhQh2s")) }
    ensures a_board_of_four_cards { IllegalAt 5 WrongCount heads_up (flop_of (codes "AhQh2s3s")) }
{}

/// Discards, replacements, and deals past the end of the deck.
pub fn draws()
    ensures a_deal_past_the_deck { AllLegal triple_draw (second_draw (codes "??????????")) }
    ensures within_the_deck { IllegalAt 33 CardTaken triple_draw (second_draw (codes "????????")) }
    ensures not_held { IllegalAt 13 NotHeld triple_draw (discarded 1 (codes "Ah")) }
    ensures out_of_order { IllegalAt 13 WrongSeat triple_draw (discarded 2 (codes "??")) }
    ensures too_many { IllegalAt 13 WrongCount triple_draw (discarded 1 (codes "2c3c4c5c7c??")) }
    ensures a_card_that_is_not_owed { IllegalAt 14 WrongSeat triple_draw dealt_after_pat }
    ensures a_seat_that_is_all_in_draws { AllLegal draw_short all_in_draws }
    ensures cards_of_a_draw_are_no_up_cards { IllegalAt 10 WrongCount single_draw kept_cards_shown }
{}
