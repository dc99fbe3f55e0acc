//! The cards before the deal: nothing is dealt, drawn, shown or mucked.
ghost use Rattle.std.specs.Prelude.{◌≡◌, ◌≤◌, ℕ, [], false};
ghost use Rattle.chip_ledger.specs.LiveRow.{flag_of};
ghost use Rattle.play_event.specs.Games.{game_of};
ghost use Rattle.card_places.specs.Drawn.{has_drawn_at, named_at};
ghost use Rattle.card_places.specs.Placed.{placed};

use crate::card_state::CardState;
use crate::deal_table::DealTable;
use crate::dealt_cards::DealtCards;
use crate::draws::Draws;
use chip_ledger::LiveRow;
use play_event::Code;

impl CardState {
    /// No cards yet, for this number of seats of the game.
    pub fn new(code: Code, seats: u8) -> Self
        requires least { 2 ≤ seats }
        requires most { seats ≤ (game_of code).seats }
        ensures code { result.table.code ≡ code }
        ensures seats { result.seats ≡ seats }
        ensures places { placed result.places ≡ [] }
        ensures drew { (street seat : ℕ) → has_drawn_at result.draws street seat ≡ false }
        ensures named { (street seat : ℕ) → named_at result.draws street seat ≡ 0 }
        ensures shown { (seat : ℕ) → flag_of result.shown seat ≡ false }
        ensures mucked { (seat : ℕ) → flag_of result.mucked seat ≡ false }
    {
        let places = DealtCards::new();
        let nobody = LiveRow::new(seats);
        CardState {
            table: DealTable::of(code),
            seats,
            places,
            draws: Draws::new(),
            shown: nobody,
            mucked: nobody,
        }
    }
}
