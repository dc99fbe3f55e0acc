//! A row of flags, one for each of its 2 to 10 seats, and `false` after its last seat.
ghost use Rattle.std.specs.Prelude.{◌≡◌, ◌≢◌, ℕ, ◌≤◌, ◌↔◌, [], false, length, IsTrue, slice_index_or};

use crate::numbers::Seat;

/// A flag for each seat of a hand, such as whether it is live. Seat 1 is at index 0, and `false` is
/// the filler.
#[derive(Clone, Copy, Debug, PartialEq, Eq, Hash)]
pub struct LiveRow {
    pub seats: u8,
    pub flags: [bool; 10],
    pub ghost least: { 2 ≤ seats },
    pub ghost greatest: { seats ≤ 10 },
    pub ghost full: { length flags ≡ 10 },
    pub ghost filler: { (k : ℕ) → seats ≤ k → slice_index_or flags k false ≡ false },
}

impl LiveRow {
    ghost use Rattle.chip_ledger.specs.LiveRow.{flag_of, flagged};

    /// A row of `seats` seats, each with the flag `false`.
    pub fn new(seats: u8) -> Self
        requires least { 2 ≤ seats }
        requires greatest { seats ≤ 10 }
        ensures seats { result.seats ≡ seats }
        ensures all_false { (n : ℕ) → flag_of result n ≡ false }
    {
        LiveRow {
            seats,
            flags: [false; 10],
        }
    }

    /// Gives the seat this flag.
    pub fn set(&mut self, seat: Seat, flag: bool)
        requires { seat.number ≤ self.old.seats }
        ensures seats { self.new.seats ≡ self.old.seats }
        ensures flag { flag_of self.new seat.number ≡ flag }
        ensures others { (n : ℕ)
            → 1 ≤ n → n ≢ seat.number → flag_of self.new n ≡ flag_of self.old n }
    {
        self.flags[seat.number as usize - 1] = flag;
    }

    /// Whether some seat has the flag `true`.
    #[tactic(auto, using(crate::proofs::Flags::flagged_some))]
    pub fn any(&self) -> bool
        ensures { IsTrue result ↔ (flagged self.now ≢ []) }
    {
        for index in 0..self.seats {
            let seat = Seat { number: index + 1 };
            if self.get(seat) {
                return true;
            }
        }
        false
    }

    /// The seat's flag; `false` after the last seat.
    pub fn get(&self, seat: Seat) -> bool
        ensures { result ≡ flag_of self.now seat.number }
    {
        self.flags[seat.number as usize - 1]
    }
}
