//! Divides chips evenly among the winners; the odd chips go one each to the first of them.
ghost use Rattle.std.specs.Prelude.{◌≡◌, ◌≤◌, ◌<◌, ◌+◌, ℕ};
ghost use Rattle.chip_ledger.specs.declared.seat_row.TheConstants.{MOST_AMOUNT};
ghost use Rattle.chip_ledger.specs.LiveRow.{flag_of};
ghost use Rattle.chip_ledger.specs.SeatRow.{amount_of, total_of};
ghost use Rattle.variant_table.specs.Division.{count_to, divided};

use chip_ledger::{LiveRow, Seat, SeatRow};

/// What each seat gets if chips are divided among the winners.
pub fn divide(winners: &LiveRow, chips: u64) -> SeatRow
    requires some { 0 < count_to (flag_of winners.now) winners.now.seats }
    requires bounded { chips ≤ MOST_AMOUNT }
    ensures seats { result.seats ≡ winners.now.seats }
    ensures parts { (n : ℕ) → 1 ≤ n → n ≤ winners.now.seats
        → amount_of result n ≡ divided winners.now.seats (flag_of winners.now) chips n }
    ensures within { (n : ℕ) → 1 ≤ n → n ≤ winners.now.seats → amount_of result n ≤ chips }
    ensures total { total_of result ≡ chips }
{
    let mut row = SeatRow::new(winners.seats);
    for index in 0..winners.seats {
        let seat = Seat { number: index + 1 };
        row.set(seat, part(winners, chips, seat));
    }
    row
}

// What a seat gets if chips are divided among the winners.
fn part(winners: &LiveRow, chips: u64, seat: Seat) -> u64
    requires in_row { seat.number ≤ winners.now.seats }
    requires some { 0 < count_to (flag_of winners.now) winners.now.seats }
    ensures part { result ≡ divided winners.now.seats (flag_of winners.now) chips seat.number }
    ensures within { result ≤ chips }
{
    let count = u64::from(flags_to(winners, winners.seats));
    let before = u64::from(flags_to(winners, seat.number - 1));
    if winners.get(seat) {
        chips / count + u64::from(before < chips % count)
    } else {
        0
    }
}

/// How many seats up to `last` have the flag.
pub fn flags_to(row: &LiveRow, last: u8) -> u8
    requires { last ≤ row.now.seats }
    ensures number { result ≡ count_to (flag_of row.now) last }
    ensures within { result ≤ last }
{
    let mut count = 0;
    for index in 0..last {
        if row.get(Seat { number: index + 1 }) {
            count += 1;
        }
    }
    count
}

/// What each seat gets in two rows together.
pub fn together(first: &SeatRow, second: &SeatRow) -> SeatRow
    requires seats { second.now.seats ≡ first.now.seats }
    requires bounded { (n : ℕ) → 1 ≤ n → n ≤ first.now.seats
        → amount_of first.now n + amount_of second.now n ≤ MOST_AMOUNT }
    ensures seats { result.seats ≡ first.now.seats }
    ensures sums { (n : ℕ) → 1 ≤ n → n ≤ first.now.seats
        → amount_of result n ≡ amount_of first.now n + amount_of second.now n }
    ensures total { total_of result ≡ total_of first.now + total_of second.now }
{
    let mut row = SeatRow::new(first.seats);
    for index in 0..first.seats {
        let seat = Seat { number: index + 1 };
        row.set(seat, first.get(seat) + second.get(seat));
    }
    row
}
