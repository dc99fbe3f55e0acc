//! The law that a move other than a fold leaves the cards as they are.
ghost use Rattle.std.specs.Prelude.{◌≡◌, false, ◌∷◌};
ghost use Rattle.card_places.specs.declared.card_state.CardState.{CardState};
ghost use Rattle.play_event.specs.Past.{Past, Move, Moved, is_folding};
ghost use Rattle.play_event.specs.Table.{places_of};
ghost use Rattle.play_event.specs.declared.code.Code.{Code};
ghost use Rattle.deal_core.specs.Standing.{StandsFor};

/// A call, a raise or a bring-in changes no place, and a state that stood for the past before it
/// stands for the past after it.
pub fn moves_leave_cards()
    ensures places { (code : Code) (past : Past) (move : Move) → is_folding move.act ≡ false
        → places_of code (Moved move ∷ past) ≡ places_of code past }
    ensures stands { (state : CardState) (past : Past) (move : Move) → StandsFor state past
        → is_folding move.act ≡ false → StandsFor state (Moved move ∷ past) }
{}
