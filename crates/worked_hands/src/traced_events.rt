//! What a trace records: who is shown, closed raises, raise units, and the cards in order. Each
//! function does nothing: its contract is computed from the rules.
ghost use Rattle.std.specs.Prelude.{[], codes, ◌∷◌, ◌≡◌};
ghost use Rattle.worked_hands.specs.Words.{slots_named};
ghost use Rattle.worked_hands.specs.Outcomes.{cards_after, closed_after, mucked_after, shown_after, units_after};
ghost use Rattle.worked_hands.specs.Setups.{antes_and_blinds, first_short, fixed_limit, heads_up, no_limit, pot_limit};
ghost use Rattle.worked_hands.specs.BetScripts.{over_short, pot_raised_to, raised_and_won, two_units};
ghost use Rattle.worked_hands.specs.CardScripts.{mixed_deals};
ghost use Rattle.worked_hands.specs.ShowScripts.{all_cards_shown, checked, checked_down, early_shows, known_mucked, named_at_showdown};

/// Who is shown and who is mucked at the end.
pub fn shown_and_mucked()
    ensures both_showed { shown_after antes_and_blinds early_shows ≡ 1 ∷ 3 ∷ [] }
    ensures known_hands_are_shown { shown_after no_limit checked_down ≡ 2 ∷ 3 ∷ [] }
    ensures an_unknown_hand_is_mucked { mucked_after no_limit (checked (codes "????")) ≡ 2 ∷ [] }
    ensures and_so_is_a_known_hand_that_mucks { mucked_after no_limit known_mucked ≡ 2 ∷ [] }
{}

/// Closed raises, and how far a raise by the unit would have gone.
pub fn traced_bets()
    ensures a_closed_raise { closed_after first_short raised_and_won ≡ 40 ∷ [] }
    ensures a_target_that_is_closed { closed_after first_short (over_short 18) ≡ 18 ∷ [] }
    ensures units_in_fixed_limit { units_after fixed_limit two_units ≡ 20 ∷ 30 ∷ 40 ∷ [] }
    ensures none_in_pot_limit { units_after pot_limit (pot_raised_to 7) ≡ 0 ∷ [] }
{}

/// The cards by street, by owner, and in the order of their deals.
pub fn traced_cards()
    ensures cards_by_owner { cards_after heads_up mixed_deals ≡ slots_named (codes "9s8hKdTc") }
    ensures cards_shown { cards_after no_limit named_at_showdown ≡ slots_named all_cards_shown }
{}
