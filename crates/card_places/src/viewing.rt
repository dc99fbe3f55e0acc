//! Reads hands, up-cards and the board from the places.
ghost use Rattle.std.specs.Prelude.{◌≡◌, ◌≢◌, ℕ, ◌<◌, ◌≤◌, ◌&&◌, None, Some, [], ◌∷◌, ◌++◌, length};
ghost use Rattle.std.specs.List.{list_any};
ghost use Rattle.card_set.specs.Known as known;
ghost use Rattle.card_set.specs.Row.{cards_of, slots_of};
ghost use Rattle.chip_ledger.specs.LiveRow.{flag_of};
ghost use Rattle.play_event.specs.Places as places;
ghost use Rattle.play_event.specs.Places.{is_held_by};
ghost use Rattle.play_event.specs.SeatSlots.{slots_of_hand, ups_of};
ghost use Rattle.play_event.specs.Held as held;
ghost use Rattle.card_places.specs.Placed.{placed};

use crate::card_state::CardState;
use card_set::{CardRow, Slot, SlotRow};
use chip_ledger::{LiveRow, Seat};
use play_event::{HandRow, UpRow};

impl CardState {
    /// The cards that each seat has, in the order of dealing.
    pub fn hands(&self) -> HandRow
        ensures seats { result.seats ≡ self.now.seats }
        ensures hands { (seat : ℕ) → 1 ≤ seat → seat ≤ self.now.seats
            → slots_of_hand result seat ≡ held.held_slots (Some seat) (placed self.now.places) }
    {
        let mut row = HandRow::new(self.seats);
        for card in self.places.as_slice() {
            if let Some(seat) = card.holder() {
                put_held(&mut row, seat, card.slot);
            }
        }
        row
    }

    /// The up-cards of each seat, in the order of dealing.
    pub fn up(&self) -> UpRow
        ensures seats { result.seats ≡ self.now.seats }
        ensures ups { (seat : ℕ) → 1 ≤ seat → seat ≤ self.now.seats → ups_of result seat
            ≡ places.up_slots self.now.table.code (placed self.now.places) seat }
    {
        let mut row = UpRow::new(self.seats);
        for card in self.places.as_slice() {
            if let Some(seat) = card.holder() {
                if self.table.is_up(card) {
                    put_up(&mut row, seat, card.slot);
                }
            }
        }
        row
    }

    /// The known cards of the board, in the order of dealing.
    pub fn board(&self) -> CardRow
        ensures { cards_of result
            ≡ known.known_among (held.held_slots None (placed self.now.places)) }
    {
        self.board_slots().known_cards()
    }

    // The cards of the board, in the order of dealing.
    fn board_slots(&self) -> SlotRow
        ensures { slots_of result ≡ held.held_slots None (placed self.now.places) }
    {
        let mut slots = SlotRow::new();
        for card in self.places.as_slice() {
            if card.held_by(None) {
                slots.push(card.slot);
            }
        }
        slots
    }

    /// Which seats have an unknown card.
    pub fn unknown(&self) -> LiveRow
        ensures seats { result.seats ≡ self.now.seats }
        ensures unknown { (seat : ℕ) → 1 ≤ seat → seat ≤ self.now.seats → flag_of result seat
            ≡ list_any (λ place. is_held_by seat place && known.hides_card place.slot)
            (placed self.now.places) }
    {
        let mut row = LiveRow::new(self.seats);
        for card in self.places.as_slice() {
            if let Some(seat) = card.holder() {
                if card.slot.is_unknown() {
                    row.set(seat, true);
                }
            }
        }
        row
    }
}

// Appends a card to the seat's hand.
fn put_held(row: &mut HandRow, seat: Seat, slot: Slot)
    requires seat { seat.number ≤ row.old.seats }
    requires room { length (slots_of_hand row.old seat.number) < 7 }
    ensures seats { row.new.seats ≡ row.old.seats }
    ensures slot { slots_of_hand row.new seat.number
        ≡ slots_of_hand row.old seat.number ++ slot ∷ [] }
    ensures others { (n : ℕ)
        → 1 ≤ n → n ≢ seat.number → slots_of_hand row.new n ≡ slots_of_hand row.old n }
{
    let mut cards = row.get(seat);
    cards.push(slot);
    row.set(seat, cards);
}

// Appends a card to the seat's up-cards.
fn put_up(row: &mut UpRow, seat: Seat, slot: Slot)
    requires seat { seat.number ≤ row.old.seats }
    requires room { length (ups_of row.old seat.number) < 7 }
    ensures seats { row.new.seats ≡ row.old.seats }
    ensures slot { ups_of row.new seat.number ≡ ups_of row.old seat.number ++ slot ∷ [] }
    ensures others { (n : ℕ)
        → 1 ≤ n → n ≢ seat.number → ups_of row.new n ≡ ups_of row.old n }
{
    let mut cards = row.get(seat);
    cards.push(slot);
    row.set(seat, cards);
}
