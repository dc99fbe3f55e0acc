//! What is on the table when a contested hand ends: whole hands, a full board, and no card twice.
//! The functions do nothing: each contract is a law.
ghost use Rattle.std.specs.Prelude.{◌≡◌, ◌≢◌, ◌≤◌, ℕ, ◌++◌, true, false, List, Some, None, length};
ghost use Rattle.play_event.specs.Held.{held_slots};
ghost use Rattle.card_set.specs.Different.{AllDifferent};
ghost use Rattle.card_set.specs.Known.{known_among};
ghost use Rattle.play_event.specs.Games.{game_of};
ghost use Rattle.play_event.specs.Laws.{AreLegal, IsAmong, moves_by};
ghost use Rattle.play_event.specs.Places.{Place};
ghost use Rattle.play_event.specs.Said.{Said};
ghost use Rattle.play_event.specs.Seats.{is_live};
ghost use Rattle.play_event.specs.Streets.{has_draw};
ghost use Rattle.play_event.specs.Taken.{is_one_card};
ghost use Rattle.play_event.specs.declared.setup.Rules.{Rules};
ghost use Rattle.play_event.specs.declared.setup.Setup.{Setup};
ghost use Rattle.play_laws.specs.LegalPlaces.{places_by};
ghost use Rattle.play_laws.specs.ContestedEnd.{EndContested};

/// When a contested hand ends, each live seat has the full number of cards, and the board is full.
pub fn law_of_whole_hands()
    ensures hands { (setup : Setup) (rules : Rules) (events : List Said) (seat : ℕ)
        → EndContested setup rules events → 1 ≤ seat → seat ≤ setup.stacks.seats
        → is_live (moves_by setup events) seat ≡ true
        → length (held_slots (Some seat) (places_by setup events)) ≡ (game_of setup.code).hole }
    ensures board { (setup : Setup) (rules : Rules) (events : List Said)
        → EndContested setup rules events
        → length (held_slots None (places_by setup events)) ≡ (game_of setup.code).board }
{}

/// After legal events the known cards that a seat and the board have are all different.
pub fn law_of_different_cards()
    ensures { (setup : Setup) (rules : Rules) (events : List Said) (seat : ℕ)
        → AreLegal setup rules events
        → AllDifferent (known_among (held_slots (Some seat) (places_by setup events))
        ++ known_among (held_slots None (places_by setup events))) }
{}

/// In a game without draws, no known card of a legal hand was dealt to two places, including the
/// cards of seats that folded.
pub fn law_of_cards_dealt_once()
    ensures { (setup : Setup) (rules : Rules) (events : List Said) (a b : Place)
        → AreLegal setup rules events
        → ((street : ℕ) → has_draw setup.code street ≡ false)
        → IsAmong (places_by setup events) a → IsAmong (places_by setup events) b
        → a.number ≢ b.number → is_one_card a.slot b.slot ≡ false }
{}
