//! A live seat gets back the chips that it put in beyond what every other seat put in.
ghost use Rattle.std.specs.Prelude.{◌≡◌, ◌-◌, ◌≤◌, ℕ};
ghost use Rattle.chip_ledger.specs.declared.live_row.LiveRow.{LiveRow};
ghost use Rattle.chip_ledger.specs.SeatRow.{amount_of};
ghost use Rattle.chip_ledger.specs.PotRow.{stake_of, stakes_of};
ghost use Rattle.chip_ledger.specs.Pots.{greatest_other, returned};
ghost use Rattle.side_pots.specs.Stakes.{stakes_in};

use crate::stakes::Stakes;
use chip_ledger::{Seat, SeatRow};

/// What each seat gets back.
pub fn returned_row(stakes: &Stakes<'_>) -> SeatRow
    ensures seats { result.seats ≡ stakes.now.chips.now.seats }
    ensures amounts { (n : ℕ) → 1 ≤ n → n ≤ stakes.now.chips.now.seats
        → amount_of result n
        ≡ returned (stakes_in stakes.now) (stake_of stakes.now.chips.now stakes.now.live.now n) }
{
    let mut row = SeatRow::new(stakes.chips.seats);
    for index in 0..stakes.chips.seats {
        let seat = Seat { number: index + 1 };
        row.set(seat, returned_to(stakes, seat));
    }
    row
}

/// What the seat gets back.
fn returned_to(stakes: &Stakes<'_>, seat: Seat) -> u64
    requires in_row { seat.number ≤ stakes.now.chips.now.seats }
    ensures amount { result
        ≡ returned (stakes_in stakes.now)
        (stake_of stakes.now.chips.now stakes.now.live.now seat.number) }
    ensures within { result ≤ amount_of stakes.now.chips.now seat.number }
{
    if stakes.live.get(seat) {
        stakes
            .chips
            .get(seat)
            .saturating_sub(greatest_of_others(stakes.chips, seat))
    } else {
        0
    }
}

/// The greatest amount of a seat other than this one, whether it folded or not.
#[tactic(auto, using(chip_ledger::proofs::Stakes::greatest_other_more))]
fn greatest_of_others(puts: &SeatRow, own: Seat) -> u64
    ensures { (live : LiveRow) → result ≡ greatest_other (stakes_of puts.now live) own.number }
{
    let mut greatest = 0;
    for index in 0..puts.seats {
        let seat = Seat { number: index + 1 };
        if seat.number != own.number {
            greatest = puts.get(seat).max(greatest);
        }
    }
    greatest
}

/// What is left of each seat's chips.
pub fn left_row(puts: &SeatRow, returned: &SeatRow) -> SeatRow
    requires { returned.now.seats ≡ puts.now.seats }
    ensures seats { result.seats ≡ puts.now.seats }
    ensures amounts { (n : ℕ) → 1 ≤ n → n ≤ puts.now.seats
        → amount_of result n ≡ amount_of puts.now n - amount_of returned.now n }
{
    let mut row = SeatRow::new(puts.seats);
    for index in 0..puts.seats {
        let seat = Seat { number: index + 1 };
        row.set(seat, puts.get(seat).saturating_sub(returned.get(seat)));
    }
    row
}
