//! The setups of the worked hands are valid, and some setups are not. Each function does nothing:
//! its contract is proved from the conditions.
ghost use Rattle.play_event.specs.ValidSetup.{IsValid};
ghost use Rattle.worked_hands.specs.Setups.{ante_all_in, antes_and_blinds, deep_stacks, draw_short, eight_in_stud, first_short, fixed_limit, greater_second_blind, heads_up, limit_short, limit_three, low_blinds, no_dead_antes, no_limit, no_stack, one_able, one_dead_ante, pot_limit, pot_short, raked, razz, single_draw, stud, stud_short, stud_three, third_short, triple_draw, unused_small_bet};

/// The setups of hands in no limit and pot limit are valid.
pub fn valid_setups_in_no_limit()
    ensures three_seats { IsValid no_limit }
    ensures the_greatest_stacks { IsValid deep_stacks }
    ensures a_rake { IsValid (raked 1) }
    ensures a_first_short_stack { IsValid first_short }
    ensures a_third_short_stack { IsValid third_short }
    ensures a_dead_ante { IsValid one_dead_ante }
    ensures antes { IsValid antes_and_blinds }
    ensures two_seats { IsValid heads_up }
    ensures omaha { IsValid pot_limit }
    ensures omaha_with_a_short_stack { IsValid pot_short }
    ensures draw { IsValid single_draw }
    ensures draw_with_a_short_stack { IsValid draw_short }
{}

/// The setups of hands in fixed limit are valid.
pub fn valid_setups_in_fixed_limit()
    ensures two_seats { IsValid fixed_limit }
    ensures a_short_stack { IsValid limit_short }
    ensures three_seats { IsValid limit_three }
    ensures blinds_below_the_bet { IsValid low_blinds }
    ensures two_in_stud { IsValid stud }
    ensures a_stack_of_two { IsValid stud_short }
    ensures a_stack_of_the_ante { IsValid one_able }
    ensures three_in_stud_with_one { IsValid ante_all_in }
    ensures a_bring_in_above_the_bet { IsValid stud_three }
    ensures two_in_razz { IsValid razz }
    ensures six_in_triple_draw { IsValid triple_draw }
{}

/// These setups are not valid.
pub fn invalid_setups()
    ensures of_two_seats_the_second_has_the_greater_blind { ¬ (IsValid greater_second_blind) }
    ensures a_stack_of_nothing { ¬ (IsValid no_stack) }
    ensures a_bet_size_that_the_game_does_not_use { ¬ (IsValid unused_small_bet) }
    ensures dead_antes_where_all_are_nothing { ¬ (IsValid no_dead_antes) }
    ensures eight_seats_of_stud { ¬ (IsValid eight_in_stud) }
{}
