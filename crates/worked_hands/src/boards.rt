//! Canonical scripts of hold'em, Omaha and stud. Each function does nothing: its contract is
//! computed from the rules.
ghost use Rattle.std.specs.Prelude.{◌≡◌, [], ◌∷◌, codes};
ghost use Rattle.worked_hands.specs.Words.{deal, board, fold, call, raise, bring_in, show, muck};
ghost use Rattle.worked_hands.specs.Outcomes.{AllLegal};
ghost use Rattle.worked_hands.specs.Setups.{antes_and_blinds, no_limit, pot_limit, stud};
ghost use Rattle.worked_hands.specs.ShowScripts.{early_shows, named_at_showdown};
ghost use Rattle.play_event.specs.CanonScript.{canon_of};
ghost use Rattle.worked_hands.specs.PlayOutcomes.{HasCompleteCanon, HasLegalCanon, HasSameTrace};
ghost use Rattle.worked_hands.specs.Scripts.{omaha_hand, stud_hand};

/// Shows before the river come last, and a card that became known by a show is dealt as known.
pub fn holdem_hands()
    ensures early_shows_come_last { canon_of antes_and_blinds early_shows
        ≡ deal 1 (codes "Ac2d") ∷ deal 2 (codes "????") ∷ deal 3 (codes "7h6h")
        ∷ raise 3 7000 ∷ raise 1 23000 ∷ fold 2 ∷ call 3
        ∷ board (codes "Jc3d5c") ∷ raise 1 35000 ∷ call 3
        ∷ board (codes "4h") ∷ raise 1 90000 ∷ raise 3 232600 ∷ raise 1 1067100 ∷ call 3
        ∷ board (codes "Jh") ∷ show 1 (codes "Ac2d") ∷ show 3 (codes "7h6h") ∷ [] }
    ensures it_is_legal { HasLegalCanon antes_and_blinds early_shows }
    ensures it_is_complete { HasCompleteCanon antes_and_blinds early_shows }
    ensures it_has_the_trace { HasSameTrace antes_and_blinds early_shows }
    ensures named_cards_are_dealt { canon_of no_limit named_at_showdown
        ≡ deal 1 (codes "????") ∷ deal 2 (codes "As2d") ∷ deal 3 (codes "Ac2h")
        ∷ call 3 ∷ fold 1 ∷ call 2 ∷ board (codes "KhKdQs") ∷ call 2 ∷ call 3
        ∷ board (codes "Qc") ∷ call 2 ∷ call 3 ∷ board (codes "Js") ∷ call 2 ∷ call 3
        ∷ show 2 (codes "As2d") ∷ show 3 (codes "Ac2h") ∷ [] }
    ensures they_are_legal { HasLegalCanon no_limit named_at_showdown }
    ensures they_have_the_trace { HasSameTrace no_limit named_at_showdown }
{}

/// Deals in pieces are one event, and a muck of known cards stays a muck.
pub fn omaha_hands()
    ensures the_hand_is_legal { AllLegal pot_limit omaha_hand }
    ensures its_canon { canon_of pot_limit omaha_hand
        ≡ deal 1 (codes "AcAd2h3h") ∷ deal 2 (codes "????????") ∷ deal 3 (codes "8hKs9hKd")
        ∷ raise 3 6 ∷ call 1 ∷ fold 2
        ∷ board (codes "Kh7c2c") ∷ call 1 ∷ raise 3 10 ∷ call 1
        ∷ board (codes "4d") ∷ call 1 ∷ call 3 ∷ board (codes "Js") ∷ call 1 ∷ call 3
        ∷ muck 1 ∷ show 3 (codes "8hKs9hKd") ∷ [] }
    ensures it_is_legal { HasLegalCanon pot_limit omaha_hand }
    ensures it_is_complete { HasCompleteCanon pot_limit omaha_hand }
    ensures it_has_the_trace { HasSameTrace pot_limit omaha_hand }
{}

/// Each street is dealt from p1 upward, and a show of the down-cards becomes a show of all cards.
pub fn stud_hands()
    ensures the_hand_is_legal { AllLegal stud stud_hand }
    ensures its_canon { canon_of stud stud_hand
        ≡ deal 1 (codes "????2c") ∷ deal 2 (codes "6c5c2d") ∷ bring_in 1 ∷ raise 2 2 ∷ call 1
        ∷ deal 1 (codes "Kc") ∷ deal 2 (codes "3d") ∷ call 1 ∷ call 2
        ∷ deal 1 (codes "4h") ∷ deal 2 (codes "4s") ∷ call 1 ∷ raise 2 4 ∷ call 1
        ∷ deal 1 (codes "9h") ∷ deal 2 (codes "9s") ∷ call 1 ∷ call 2
        ∷ deal 1 (codes "??") ∷ deal 2 (codes "7c") ∷ call 1 ∷ call 2
        ∷ muck 1 ∷ show 2 (codes "6c5c2d3d4s9s7c") ∷ [] }
    ensures it_is_legal { HasLegalCanon stud stud_hand }
    ensures it_is_complete { HasCompleteCanon stud stud_hand }
    ensures it_has_the_trace { HasSameTrace stud stud_hand }
{}
