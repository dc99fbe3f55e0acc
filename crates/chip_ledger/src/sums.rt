//! The total of a row is the sum of its seats' amounts.
ghost use Rattle.std.specs.Prelude.{◌≡◌, ◌*◌, ◌≤◌};
ghost use Rattle.chip_ledger.specs.SeatRow.{total_of};
ghost use Rattle.chip_ledger.specs.declared.seat_row.TheConstants.{MOST_AMOUNT};

use crate::seat_row::SeatRow;

/// The amounts of all seats of the row added up.
pub fn total(row: &SeatRow) -> u64
    ensures sum { result ≡ total_of row.now }
    ensures bounded { result ≤ 10 * MOST_AMOUNT }
{
    let mut all = 0;
    for i in 0..row.seats as usize {
        all += row.amounts[i];
    }
    all
}
