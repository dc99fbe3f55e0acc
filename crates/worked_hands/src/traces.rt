//! Whole traces of hands that are written out, and traces that they do not have. Each function does
//! nothing: its contract is computed from the rules.
ghost use Rattle.play_event.specs.HistoryRules.{history_rules};
ghost use Rattle.hand_canon.specs.LegalHand.{IsLegalHand};
ghost use Rattle.worked_hands.specs.Setups.{antes_and_blinds, no_limit, pot_limit, single_draw, stud, triple_draw};
ghost use Rattle.worked_hands.specs.ShowScripts.{early_shows, named_at_showdown};
ghost use Rattle.worked_hands.specs.BoardTraces.{divided_trace, early_trace, omaha_trace};
ghost use Rattle.worked_hands.specs.PlayOutcomes.{HasTrace};
ghost use Rattle.worked_hands.specs.Scripts.{badugi_hand, folded_draw, mixed_draw, omaha_hand, past_the_deck, stud_hand};
ghost use Rattle.worked_hands.specs.PlaySetups.{badugi, three_in_single_draw};
ghost use Rattle.worked_hands.specs.StreetTraces.{badugi_trace, folded_trace, mixed_trace, past_deck_trace, stud_trace};
ghost use Rattle.worked_hands.specs.Traces.{checked_draw, checked_trace, steal, steal_trace};
ghost use Rattle.worked_hands.specs.WrongTraces.{muck_shown, muck_paid, returned_in_pot, chip_from_p2, cards_named, fold_forgotten};

/// A hand that is won by folds: the uncalled raise is returned, and is in no pot.
pub fn traces_of_folds()
    ensures the_hand_is_legal { IsLegalHand no_limit history_rules steal }
    ensures its_trace { HasTrace no_limit steal steal_trace }
    ensures a_chip_more_for_p3 { ¬ (HasTrace no_limit steal chip_from_p2) }
    ensures returned_chips_in_the_pot { ¬ (HasTrace no_limit steal returned_in_pot) }
    ensures cards_that_nobody_named { ¬ (HasTrace no_limit steal cards_named) }
    ensures a_fold_left_out { ¬ (HasTrace no_limit steal fold_forgotten) }
{}

/// A contested hand that the only shown hand wins.
pub fn traces_of_showdowns()
    ensures the_hand_is_legal { IsLegalHand single_draw history_rules checked_draw }
    ensures its_trace { HasTrace single_draw checked_draw checked_trace }
    ensures chips_for_the_seat_that_mucked { ¬ (HasTrace single_draw checked_draw muck_paid) }
    ensures a_muck_that_is_shown { ¬ (HasTrace single_draw checked_draw muck_shown) }
{}

/// Hold'em: shows before the river, with chips that are returned; and a card that becomes known by
/// a show, in a pot that two equal hands split, with the odd chip to the lower seat.
pub fn traces_of_holdem()
    ensures early_shows { HasTrace antes_and_blinds early_shows early_trace }
    ensures a_divided_pot { HasTrace no_limit named_at_showdown divided_trace }
{}

/// Omaha and stud: cards that become known by a show, and mucks of known and unknown cards.
pub fn traces_of_omaha_and_stud()
    ensures omaha { HasTrace pot_limit omaha_hand omaha_trace }
    ensures stud { HasTrace stud stud_hand stud_trace }
{}

/// Single draw: cards that become known by discards and shows, a seat that showed and then mucks,
/// and a hand that is won by folds.
pub fn traces_of_single_draws()
    ensures mixed { HasTrace three_in_single_draw mixed_draw mixed_trace }
    ensures folded { HasTrace three_in_single_draw folded_draw folded_trace }
{}

/// Three draws: a discarded card that is dealt again once the deck has run out, and two hands of
/// badugi.
pub fn traces_of_triple_draws()
    ensures past_the_deck { HasTrace triple_draw past_the_deck past_deck_trace }
    ensures badugi { HasTrace badugi badugi_hand badugi_trace }
{}
