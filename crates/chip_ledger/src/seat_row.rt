//! A row of amounts of chips, one for each of its 2 to 10 seats, and 0 after its last seat.
ghost use Rattle.std.specs.Prelude.{◌≡◌, ◌≢◌, ℕ, ◌≤◌, length, slice_index};
ghost use Rattle.chip_ledger.specs.declared.seat_row.TheConstants.{MOST_AMOUNT};

use crate::numbers::Seat;
use crate::player_count::PlayerCount;

/// The greatest amount of one seat in a row, in chips.
pub const MOST_AMOUNT: u64 = 10_000_000_000_000;

/// An amount of chips for each seat of a hand. Seat 1 is at index 0, and 0 is the filler.
#[derive(Clone, Copy, Debug, PartialEq, Eq, Hash)]
pub struct SeatRow {
    pub seats: u8,
    pub amounts: [u64; 10],
    pub ghost least: { 2 ≤ seats },
    pub ghost greatest: { seats ≤ 10 },
    pub ghost full: { length amounts ≡ 10 },
    pub ghost bounded: { (k : ℕ) → slice_index amounts k ≤ MOST_AMOUNT },
    pub ghost filler: { (k : ℕ) → seats ≤ k → slice_index amounts k ≡ 0 },
}

impl SeatRow {
    ghost use Rattle.chip_ledger.specs.SeatRow.{amount_of, amounts_in};

    /// A row of `seats` seats, each with the amount 0.
    pub fn new(seats: u8) -> Self
        requires least { 2 ≤ seats }
        requires greatest { seats ≤ 10 }
        ensures seats { result.seats ≡ seats }
        ensures all_zero { (n : ℕ) → amount_of result n ≡ 0 }
    {
        SeatRow {
            seats,
            amounts: [0; 10],
        }
    }

    /// How many players the row has an amount for.
    pub fn players(&self) -> PlayerCount
        ensures { result.number ≡ self.now.seats }
    {
        PlayerCount { number: self.seats }
    }

    /// The seat's amount; 0 after the last seat.
    pub fn get(&self, seat: Seat) -> u64
        ensures { result ≡ amount_of self.now seat.number }
    {
        self.amounts[seat.number as usize - 1]
    }

    /// The amounts of the seats, seat 1 first.
    pub fn as_slice(&self) -> &[u64]
        ensures { result.now ≡ amounts_in self.now }
    {
        &self.amounts[..self.seats as usize]
    }

    /// Gives the seat this amount.
    pub fn set(&mut self, seat: Seat, amount: u64)
        requires in_row { seat.number ≤ self.old.seats }
        requires bounded { amount ≤ MOST_AMOUNT }
        ensures seats { self.new.seats ≡ self.old.seats }
        ensures amount { amount_of self.new seat.number ≡ amount }
        ensures others { (n : ℕ)
            → 1 ≤ n → n ≢ seat.number → amount_of self.new n ≡ amount_of self.old n }
    {
        self.amounts[seat.number as usize - 1] = amount;
    }
}
