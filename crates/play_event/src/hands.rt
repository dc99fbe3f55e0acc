//! The cards that each of up to ten seats holds.
ghost use Rattle.std.specs.Prelude.{◌≡◌, ◌≢◌, ℕ, ◌≤◌, [], length};
ghost use Rattle.card_set.specs.Row.{slots_of};
ghost use Rattle.play_event.specs.SlotRows.{slots_at};

use card_set::SlotRow;
use chip_ledger::Seat;

/// The cards that each seat holds. The first seat's are at index 0; past the last seat there are
/// none.
#[derive(Clone, Copy, Debug, PartialEq, Eq)]
pub struct HandRow {
    pub seats: u8,
    pub hands: [SlotRow; 10],
    pub ghost greatest: { seats ≤ 10 },
    pub ghost full: { length hands ≡ 10 },
    pub ghost filler: { (k : ℕ) → seats ≤ k → slots_at hands k ≡ [] },
}

impl HandRow {
    ghost use Rattle.play_event.specs.SeatSlots.{slots_of_hand};

    /// A row of `seats` seats, each without cards.
    pub fn new(seats: u8) -> Self
        requires { seats ≤ 10 }
        ensures seats { result.seats ≡ seats }
        ensures empty { (n : ℕ) → slots_of_hand result n ≡ [] }
    {
        let none = SlotRow::new();
        HandRow {
            seats,
            hands: [none; 10],
        }
    }

    /// The seat's cards; past the last seat, no cards.
    pub fn get(&self, seat: Seat) -> SlotRow
        ensures { slots_of result ≡ slots_of_hand self.now seat.number }
    {
        self.hands[seat.number as usize - 1]
    }

    /// Gives the seat these cards.
    pub fn set(&mut self, seat: Seat, cards: SlotRow)
        requires { seat.number ≤ self.old.seats }
        ensures seats { self.new.seats ≡ self.old.seats }
        ensures cards { slots_of_hand self.new seat.number ≡ slots_of cards }
        ensures others { (n : ℕ)
            → 1 ≤ n → n ≢ seat.number → slots_of_hand self.new n ≡ slots_of_hand self.old n }
    {
        self.hands[seat.number as usize - 1] = cards;
    }
}
