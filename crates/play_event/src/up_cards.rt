//! The up-cards of each of up to ten seats.
ghost use Rattle.std.specs.Prelude.{◌≡◌, ◌≢◌, ℕ, ◌≤◌, [], length};
ghost use Rattle.card_set.specs.Row.{slots_of};
ghost use Rattle.play_event.specs.SlotRows.{slots_at};

use card_set::SlotRow;
use chip_ledger::Seat;

/// The up-cards of each seat. The first seat's are at index 0; past the last seat there are none.
#[derive(Clone, Copy, Debug, PartialEq, Eq)]
pub struct UpRow {
    pub seats: u8,
    pub cards: [SlotRow; 10],
    pub ghost greatest: { seats ≤ 10 },
    pub ghost full: { length cards ≡ 10 },
    pub ghost filler: { (k : ℕ) → seats ≤ k → slots_at cards k ≡ [] },
}

impl UpRow {
    ghost use Rattle.play_event.specs.SeatSlots.{ups_of};

    /// A row of `seats` seats, each without up-cards.
    pub fn new(seats: u8) -> Self
        requires { seats ≤ 10 }
        ensures seats { result.seats ≡ seats }
        ensures empty { (n : ℕ) → ups_of result n ≡ [] }
    {
        let none = SlotRow::new();
        UpRow {
            seats,
            cards: [none; 10],
        }
    }

    /// The seat's up-cards; past the last seat, no cards.
    pub fn get(&self, seat: Seat) -> SlotRow
        ensures { slots_of result ≡ ups_of self.now seat.number }
    {
        self.cards[seat.number as usize - 1]
    }

    /// Gives the seat these up-cards.
    pub fn set(&mut self, seat: Seat, cards: SlotRow)
        requires { seat.number ≤ self.old.seats }
        ensures seats { self.new.seats ≡ self.old.seats }
        ensures cards { ups_of self.new seat.number ≡ slots_of cards }
        ensures others { (n : ℕ)
            → 1 ≤ n → n ≢ seat.number → ups_of self.new n ≡ ups_of self.old n }
    {
        self.cards[seat.number as usize - 1] = cards;
    }
}
