//! Canonical scripts of short deck, and of matches with rules of their own. Each function does
//! nothing: its contract is computed from the rules.
ghost use Rattle.std.specs.Prelude.{◌≡◌, [], ◌∷◌, codes};
ghost use Rattle.play_event.specs.declared.reason.Illegal.TheVariants as reasons;
ghost use Rattle.play_event.specs.CanonScript.{canon_of};
ghost use Rattle.worked_hands.specs.Outcomes.{AllLegal, AllLegalBy, IllegalAt, closed_after};
ghost use Rattle.worked_hands.specs.Setups.{first_short, fixed_limit};
ghost use Rattle.worked_hands.specs.Words.{board, call, deal, fold, raise, show, uncapped};
ghost use Rattle.worked_hands.specs.PlayOutcomes.{HasCompleteCanon, HasLegalCanon, HasLegalCanonBy, HasSameTrace};
ghost use Rattle.worked_hands.specs.Scripts.{capped_hand, reopened_hand, short_deck_hand};
ghost use Rattle.worked_hands.specs.PlaySetups.{four_raises, short_deck};

/// After an all-in before the flop the board is dealt street by street, and both players show at
/// the end.
pub fn short_deck_hands()
    ensures the_hand_is_legal { AllLegal short_deck short_deck_hand }
    ensures its_canon { canon_of short_deck short_deck_hand
        ≡ deal 1 (codes "JhJd") ∷ deal 2 (codes "AsKs") ∷ deal 3 (codes "6c7h")
        ∷ call 3 ∷ call 1 ∷ raise 2 100 ∷ fold 3 ∷ call 1
        ∷ board (codes "KhKdQs") ∷ board (codes "Qc") ∷ board (codes "Js")
        ∷ show 1 (codes "JhJd") ∷ show 2 (codes "AsKs") ∷ [] }
    ensures it_is_legal { HasLegalCanon short_deck short_deck_hand }
    ensures it_is_complete { HasCompleteCanon short_deck short_deck_hand }
    ensures it_has_the_trace { HasSameTrace short_deck short_deck_hand }
{}

/// A raise that is closed under the rules of hand histories stays closed, and is legal in a match.
pub fn reopened_hands()
    ensures the_hand_is_legal { AllLegalBy uncapped first_short reopened_hand }
    ensures a_raise_is_closed { closed_after first_short reopened_hand ≡ 50 ∷ [] }
    ensures histories_refuse_it { IllegalAt 7 reasons.RaiseClosed first_short reopened_hand }
    ensures its_canon_is_legal { HasLegalCanonBy uncapped first_short reopened_hand }
    ensures it_is_complete { HasCompleteCanon first_short reopened_hand }
    ensures it_has_the_trace { HasSameTrace first_short reopened_hand }
{}

/// The number of raises that the caps of a match allow.
pub fn capped_hands()
    ensures the_hand_is_legal { AllLegalBy four_raises fixed_limit capped_hand }
    ensures its_canon_is_legal { HasLegalCanonBy four_raises fixed_limit capped_hand }
    ensures it_is_complete { HasCompleteCanon fixed_limit capped_hand }
    ensures it_has_the_trace { HasSameTrace fixed_limit capped_hand }
{}
