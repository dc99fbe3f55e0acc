//! What each player finishes with.
ghost use Rattle.std.specs.Prelude.{◌≡◌, ◌+◌, ◌≤◌, ℕ, All, sum_by};
ghost use Rattle.chip_ledger.specs.PotRow.{shares_in};
ghost use Rattle.chip_ledger.specs.SeatRow.{amount_of};
ghost use Rattle.chip_ledger.specs.declared.seat_row.TheConstants.{MOST_AMOUNT};

use chip_ledger::{Seat, SeatRow, ShareRow};

/// What each player finishes with: the chips that are left, those returned, and the shares of the
/// pots.
pub fn finish_row(left: &SeatRow, returned: &SeatRow, shares: &ShareRow) -> SeatRow
    requires returned { returned.now.seats ≡ left.now.seats }
    requires shares { All (λ row. row.seats ≡ left.now.seats) (shares_in shares.now) }
    requires bounded { (n : ℕ) → 1 ≤ n → n ≤ left.now.seats
        → amount_of left.now n + (amount_of returned.now n
        + sum_by (λ row. amount_of row n) (shares_in shares.now)) ≤ MOST_AMOUNT }
    ensures seats { result.seats ≡ left.now.seats }
    ensures amounts { (n : ℕ) → 1 ≤ n → n ≤ left.now.seats → amount_of result n
        ≡ amount_of left.now n + (amount_of returned.now n
        + sum_by (λ row. amount_of row n) (shares_in shares.now)) }
{
    let mut row = SeatRow::new(left.seats);
    for index in 0..left.seats {
        let seat = Seat { number: index + 1 };
        let back = returned.get(seat) + won(shares, seat);
        row.set(seat, left.get(seat) + back);
    }
    row
}

// The shares of the seat together.
fn won(shares: &ShareRow, seat: Seat) -> u64
    requires { All (λ row. seat.number ≤ row.seats) (shares_in shares.now) }
    ensures { result ≡ sum_by (λ row. amount_of row seat.number) (shares_in shares.now) }
{
    let mut all = 0;
    for row in &shares.shares[..shares.count as usize] {
        all += row.get(seat);
    }
    all
}
