//! Who may raise, and to what. Each function does nothing: its contract is computed from the rules.
ghost use Rattle.std.specs.Prelude.{[], ◌∷◌, ◌≡◌};
ghost use Rattle.play_event.specs.declared.reason.Illegal.TheVariants.{NothingToCall, RaiseClosed, RaiseTooSmall, RaiseTooBig, AmountDiffers};
ghost use Rattle.worked_hands.specs.Words.{capped, uncapped};
ghost use Rattle.worked_hands.specs.Outcomes.{AllLegal, AllLegalBy, IllegalAt, IllegalAtBy, puts_after};
ghost use Rattle.worked_hands.specs.Setups.{first_short, fixed_limit, heads_up, limit_short, limit_three, low_blinds, pot_limit, pot_short, stud, stud_three, third_short};
ghost use Rattle.worked_hands.specs.BetScripts.{bet_by_total, call_stating, four_units, free_fold, full_bring_in, half_bet_more, one_unit, opened_to, over_low_blinds, over_short, over_three, pot_raised_again, pot_raised_to, raised_again, raised_and_won, short_call, small_bet_later, two_units_later, unit_over_bring_in};

/// The least raise in no limit, if only a full raise reopens the betting, and if every raise does.
pub fn raises_in_no_limit()
    ensures below_the_least_raise { IllegalAt 3 RaiseTooSmall heads_up (opened_to 150) }
    ensures eighteen_is_no_full_raise { IllegalAt 6 RaiseTooSmall first_short (over_short 18) }
    ensures twenty_two_is_a_full_raise { AllLegal first_short (over_short 22) }
    ensures not_to_seventeen { IllegalAtBy uncapped 6 RaiseTooSmall first_short (over_short 17) }
    ensures to_eighteen { AllLegalBy uncapped first_short (over_short 18) }
    ensures a_floor_from_the_start { AllLegalBy uncapped third_short (over_three 4) }
    ensures a_small_bet_on_a_later_street { AllLegal heads_up small_bet_later }
    ensures and_where_betting_always_reopens { AllLegalBy uncapped heads_up small_bet_later }
{}

/// When a player who has acted may raise again.
pub fn reopened_betting()
    ensures a_short_all_in_does_not_reopen { IllegalAt 7 RaiseClosed first_short raised_again }
    ensures it_does_where_betting_always_reopens { AllLegalBy uncapped first_short raised_and_won }
    ensures nor_does_it_in_pot_limit { IllegalAt 7 RaiseClosed pot_short pot_raised_again }
    ensures half_a_bet_reopens_in_fixed_limit { AllLegal limit_three half_bet_more }
{}

/// The pot limits a raise.
pub fn raises_in_pot_limit()
    ensures the_pot { AllLegal pot_limit (pot_raised_to 7) }
    ensures above_the_pot { IllegalAt 4 RaiseTooBig pot_limit (pot_raised_to 8) }
    ensures too_small { IllegalAt 4 RaiseTooSmall pot_limit (pot_raised_to 3) }
{}

/// Raise units, full bets, and caps.
pub fn raises_in_fixed_limit()
    ensures a_fourth_raise { IllegalAtBy capped 6 RaiseClosed fixed_limit four_units }
    ensures a_second_raise_later { IllegalAtBy capped 7 RaiseClosed fixed_limit two_units_later }
    ensures a_unit_goes_no_further_than_all_in { AllLegal limit_short one_unit }
    ensures a_unit_over_a_bring_in { puts_after stud unit_over_bring_in ≡ 2 ∷ 3 ∷ [] }
    ensures a_bring_in_moves_the_full_bet { AllLegal stud_three full_bring_in }
    ensures low_blinds_are_no_full_bet { IllegalAt 5 RaiseTooSmall low_blinds over_low_blinds }
{}

/// A fold with nothing to call, and calls that state the chips that they add.
pub fn folds_and_calls()
    ensures a_free_fold { AllLegal heads_up free_fold }
    ensures a_fold_with_nothing_to_call { IllegalAtBy uncapped 4 NothingToCall heads_up free_fold }
    ensures a_call_that_states_what_it_adds { AllLegal heads_up (call_stating 200) }
    ensures a_call_stating_nothing { IllegalAt 4 (AmountDiffers 0 200) heads_up (call_stating 0) }
    ensures a_short_call_states_what_it_adds { AllLegal first_short (short_call 13) }
    ensures not_what_is_owed { IllegalAt 5 (AmountDiffers 19 13) first_short (short_call 19) }
    ensures a_bet_by_the_chips_of_the_hand { puts_after heads_up bet_by_total ≡ 300 ∷ 100 ∷ [] }
{}
