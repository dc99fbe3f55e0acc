//! Canonical scripts of draws. Each function does nothing: its contract is computed from the rules.
ghost use Rattle.std.specs.Prelude.{◌≡◌, [], ◌∷◌, codes};
ghost use Rattle.worked_hands.specs.Words.{deal, fold, call, raise, discard, show, muck};
ghost use Rattle.worked_hands.specs.Outcomes.{AllLegal};
ghost use Rattle.worked_hands.specs.Setups.{triple_draw};
ghost use Rattle.play_event.specs.CanonScript.{canon_of};
ghost use Rattle.worked_hands.specs.PlayOutcomes.{HasCompleteCanon, HasLegalCanon, HasSameTrace};
ghost use Rattle.worked_hands.specs.Scripts.{badugi_hand, folded_draw, mixed_draw, past_the_deck};
ghost use Rattle.worked_hands.specs.PlaySetups.{badugi, three_in_single_draw};

/// All discards come before the deals, and a seat that showed and was then dealt an unknown card
/// mucks.
pub fn single_draws()
    ensures the_hand_is_legal { AllLegal three_in_single_draw mixed_draw }
    ensures its_canon { canon_of three_in_single_draw mixed_draw
        ≡ deal 1 (codes "2c9c4c5c??") ∷ deal 2 (codes "2h3h4h5h7h") ∷ deal 3 (codes "??9hTsJsTh")
        ∷ raise 3 40 ∷ call 1 ∷ call 2
        ∷ discard 1 (codes "9c4c??") ∷ discard 2 (codes "3h") ∷ discard 3 (codes "??Th")
        ∷ deal 1 (codes "6d7d8d") ∷ deal 2 (codes "??") ∷ deal 3 (codes "JdQd")
        ∷ show 1 (codes "2c5c6d7d8d") ∷ muck 2 ∷ show 3 (codes "9hTsJsJdQd") ∷ [] }
    ensures it_is_legal { HasLegalCanon three_in_single_draw mixed_draw }
    ensures it_is_complete { HasCompleteCanon three_in_single_draw mixed_draw }
    ensures it_has_the_trace { HasSameTrace three_in_single_draw mixed_draw }
{}

/// The seats that are live when the draw begins discard, even one that folds after it; a hand won
/// by folds has no showdown.
pub fn folded_draws()
    ensures the_hand_is_legal { AllLegal three_in_single_draw folded_draw }
    ensures its_canon { canon_of three_in_single_draw folded_draw
        ≡ deal 1 (codes "2c3c4c5c7c") ∷ deal 2 (codes "??????????") ∷ deal 3 (codes "??????????")
        ∷ raise 3 4 ∷ call 1 ∷ fold 2
        ∷ discard 1 (codes "7c") ∷ discard 3 (codes "????")
        ∷ deal 1 (codes "8d") ∷ deal 3 (codes "????") ∷ raise 1 10 ∷ fold 3 ∷ [] }
    ensures it_is_legal { HasLegalCanon three_in_single_draw folded_draw }
    ensures it_is_complete { HasCompleteCanon three_in_single_draw folded_draw }
    ensures it_has_the_trace { HasSameTrace three_in_single_draw folded_draw }
{}

/// A discarded card is dealt again once the deck has run out.
pub fn draws_past_the_deck()
    ensures the_hand_is_legal { AllLegal triple_draw past_the_deck }
    ensures its_canon_is_legal { HasLegalCanon triple_draw past_the_deck }
    ensures its_canon_is_complete { HasCompleteCanon triple_draw past_the_deck }
    ensures its_canon_has_the_trace { HasSameTrace triple_draw past_the_deck }
{}

/// Three draws of two and three seats.
pub fn badugi_hands()
    ensures the_hand_is_legal { AllLegal badugi badugi_hand }
    ensures its_canon_is_legal { HasLegalCanon badugi badugi_hand }
    ensures its_canon_is_complete { HasCompleteCanon badugi badugi_hand }
    ensures its_canon_has_the_trace { HasSameTrace badugi badugi_hand }
{}
