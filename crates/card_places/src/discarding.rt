//! Refuses a discard by the rules, or removes the cards that it names.
ghost use Rattle.std.specs.Prelude.{◌≡◌, ◌≤◌, None, Some, IfErr, OnErr, OnOk};
ghost use Rattle.card_set.specs.Row.{slots_of};
ghost use Rattle.card_places.specs.Placed.{placed};
ghost use Rattle.card_places.specs.Refusals as why;
ghost use Rattle.card_places.specs.Discarded.{IsDiscarded, IsDiscardSearch};

use crate::card_state::CardState;
use crate::deal_table::DealTable;
use crate::dealt_cards::DealtCards;
use crate::misplacing::is_misplacing;
use crate::names::blanks;
use crate::naming::lacks_unknown_places;
use crate::search::{NamedCards, apply_names, named_cards};
use card_set::SlotRow;
use chip_ledger::{LiveRow, Seat};
use play_event::Illegal;

impl CardState {
    /// Discards the cards on the street if that is legal; otherwise changes nothing.
    pub fn discard(
        &mut self,
        live: &LiveRow,
        on: u8,
        seat: Seat,
        cards: &SlotRow,
    ) -> Result<(), Illegal>
        requires street { on ≤ 5 }
        ensures right { OnOk result (why.discard_reason_on self.old live.now on seat.number
            (slots_of cards.now) ≡ None) }
        ensures wrong { IfErr result (λ reason. why.discard_reason_on self.old live.now on
            seat.number (slots_of cards.now) ≡ Some reason) }
        ensures discarded { OnOk result
            (IsDiscarded self.old self.new on seat.number (slots_of cards.now)) }
        ensures unchanged { OnErr result (self.new ≡ self.old) }
        ensures table { self.new.table ≡ self.old.table }
        ensures seats { self.new.seats ≡ self.old.seats }
    {
        let search = discard_search(&self.table, &self.places, on, seat, cards);
        match self.illegal_discard_on(live, on, seat, cards, &search) {
            Some(reason) => Err(reason),
            None => {
                apply_names(&self.table, &mut self.places, &search);
                self.draws.set(on, seat, cards.len);
                Ok(())
            }
        }
    }

    // Why the seat may not discard the cards on the street.
    fn illegal_discard_on(
        &self,
        live: &LiveRow,
        on: u8,
        seat: Seat,
        cards: &SlotRow,
        search: &NamedCards,
    ) -> Option<Illegal>
        requires { IsDiscardSearch self.now.table.code search.now (placed self.now.places) on
            seat.number (slots_of cards.now) }
        ensures { result ≡ why.discard_reason_on self.now live.now on seat.number
            (slots_of cards.now) }
    {
        let rows = self.places.as_slice();
        if !self.is_next_to_draw(live, on, seat) {
            Some(Illegal::WrongSeat)
        } else if self.places.held(Some(seat)) < cards.len {
            Some(Illegal::WrongCount)
        } else if is_misplacing(&self.table, rows, search) {
            Some(Illegal::CardTaken)
        } else if lacks_unknown_places(&self.table, rows, search) {
            Some(Illegal::NotHeld)
        } else {
            None
        }
    }

    // The seat draws next.
    fn is_next_to_draw(&self, live: &LiveRow, on: u8, seat: Seat) -> bool
        ensures { result ≡ why.is_next_in self.now live.now on seat.number }
    {
        match self.next_to_draw(live, on) {
            Some(next) => next.number == seat.number,
            None => false,
        }
    }
}

// What a discard looks for.
fn discard_search(
    table: &DealTable,
    places: &DealtCards,
    on: u8,
    seat: Seat,
    cards: &SlotRow,
) -> NamedCards
    ensures { IsDiscardSearch table.now.code result (placed places.now) on seat.number
        (slots_of cards.now) }
{
    let names = cards.known_cards();
    let blanks = blanks(cards.as_slice()) as u8;
    named_cards(table, places, seat, true, Some(on), &names, blanks)
}
