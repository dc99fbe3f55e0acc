//! The laws of MATCHSTATE lines: a line shows nothing that its seat could not know, and has the
//! boards dealt by then.
ghost use Rattle.std.specs.Prelude.{◌≡◌, ◌≤◌, ◌∷◌, ◌++◌, ℕ, Bool, List, false, length, ◌&&◌, if◌then◌else◌, nat_le};
ghost use Rattle.acpc_view.specs.Known.{AreAlikeTo};
ghost use Rattle.acpc_format.specs.Rounds.{has_board};
ghost use Rattle.acpc_view.specs.View.{has_begun, view_line};
ghost use Rattle.hand_canon.specs.declared.trace.Play.{Play};
ghost use Rattle.play_event.specs.Dealing.{board_cards_dealt};
ghost use Rattle.play_event.specs.Due.{turn};
ghost use Rattle.play_event.specs.Games.{street_count};
ghost use Rattle.play_event.specs.Laws.{AreLegal, moves_by};
ghost use Rattle.play_event.specs.Said.{Said};
ghost use Rattle.play_event.specs.Scripts.{past_of};
ghost use Rattle.play_event.specs.Trace.{traced_moves, traced_places};
ghost use Rattle.play_event.specs.declared.setup.Rules.{Rules};
ghost use Rattle.play_event.specs.declared.setup.Setup.{Setup};
ghost use Rattle.play_laws.specs.CardEvents.{is_card_said};

/// The line of a seat before a move depends on nothing that the seat could not know: if two plays
/// have the same setup and hand number, the same cards of that seat, the same moves so far and the
/// same boards of the rounds that have begun, they have the same line. The function does nothing:
/// its contract is a law.
pub fn law_of_unknown_cards()
    ensures { (no_limit : Bool) (viewer place index : ℕ) (one other : Play)
        → AreAlikeTo viewer place index one other
        → view_line no_limit viewer place one index
        ≡ view_line no_limit viewer place other index }
{}

/// Before a legal move a board is on the table if and only if its round has begun, by the moves of
/// the whole trace, and the trace has the board (`there`). It then has all cards that it ever gets
/// (`whole`). The events are given newest first: those after the move, the move, and those before
/// it. The function does nothing: its contract is a law.
pub fn law_of_begun_boards()
    ensures there { (setup : Setup) (rules : Rules) (later events : List Said) (event : Said)
        → AreLegal setup rules (later ++ event ∷ events) → is_card_said event ≡ false
        → (street : ℕ) → 1 ≤ street → street ≤ street_count setup.code
        → has_board (traced_places setup (past_of setup events)) street
        ≡ (has_begun (traced_moves setup (moves_by setup (later ++ event ∷ events)))
        (length (moves_by setup events)) street
        && has_board (traced_places setup (past_of setup (later ++ event ∷ events))) street) }
    ensures whole { (setup : Setup) (rules : Rules) (later events : List Said) (event : Said)
        → AreLegal setup rules (later ++ event ∷ events) → is_card_said event ≡ false
        → (street : ℕ) → 1 ≤ street
        → board_cards_dealt (past_of setup events) street
        ≡ (if nat_le street (turn setup (past_of setup events)).0
        then board_cards_dealt (past_of setup (later ++ event ∷ events)) street else 0) }
{}
