//! Hands that are won by folds on the first street of no-limit hold'em. Each function does nothing:
//! its contract is computed from the rules.
ghost use Rattle.std.specs.Prelude.{Some, [], false, slice_get, true, ◌∷◌, ◌≡◌};
ghost use Rattle.play_event.specs.declared.reason.Illegal.TheVariants.{HandOver, WrongSeat, RaiseTooSmall, RaiseTooBig};
ghost use Rattle.play_event.specs.Scripts.{has_early_end};
ghost use Rattle.worked_hands.specs.Outcomes.{AllLegal, IllegalAt, ends_with};
ghost use Rattle.worked_hands.specs.Setups.{deep_stacks, no_limit, one_dead_ante, raked};
ghost use Rattle.worked_hands.specs.BetScripts.{early_fold, folded_to_blind, one_fold, raised_to, three_folds, two_folds};

/// A raise and two folds: what is illegal in it, and what the players finish with.
pub fn hands_won_by_folds()
    ensures a_raise_and_two_folds { AllLegal no_limit two_folds }
    ensures it_is_complete { has_early_end no_limit two_folds ≡ false }
    ensures it_ends_with { ends_with no_limit two_folds ≡ 99 ∷ 98 ∷ 103 ∷ [] }
    ensures cut_before_the_last_fold { AllLegal no_limit one_fold }
    ensures it_ends_early { has_early_end no_limit one_fold ≡ true }
    ensures a_raise_to_three { IllegalAt 4 RaiseTooSmall no_limit (raised_to 3) }
    ensures a_raise_to_four { AllLegal no_limit (raised_to 4) }
    ensures a_raise_above_the_stack { IllegalAt 4 RaiseTooBig no_limit (raised_to 101) }
    ensures a_fold_out_of_turn { IllegalAt 5 WrongSeat no_limit early_fold }
    ensures a_fold_after_the_end { IllegalAt 7 HandOver no_limit three_folds }
    ensures dead_antes { ends_with one_dead_ante folded_to_blind ≡ 99 ∷ 101 ∷ 100 ∷ [] }
    ensures a_rake_of_one_chip { ends_with (raked 1) two_folds ≡ 99 ∷ 98 ∷ 102 ∷ [] }
    ensures a_rake_of_the_whole_pot { ends_with (raked 5) two_folds ≡ 99 ∷ 98 ∷ 98 ∷ [] }
{}

/// Stacks of 10^12 chips are counted to the last chip.
pub fn deep_stacks_won_by_folds()
    ensures stack_of_p1 { slice_get (ends_with deep_stacks two_folds) 0 ≡ Some 999999999999 }
    ensures stack_of_p2 { slice_get (ends_with deep_stacks two_folds) 1 ≡ Some 999999999998 }
    ensures stack_of_p3 { slice_get (ends_with deep_stacks two_folds) 2 ≡ Some 1000000000003 }
{}
