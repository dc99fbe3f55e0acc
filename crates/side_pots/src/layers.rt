//! The pot of a level: every seat's chips between the level below and it, for the live seats that
//! reach it.
ghost use Rattle.std.specs.Prelude.{◌≡◌, ◌+◌, ◌*◌, ◌≤◌, ◌&&◌, ℕ, nat_le};
ghost use Rattle.chip_ledger.specs.declared.live_row.LiveRow.{LiveRow};
ghost use Rattle.chip_ledger.specs.declared.seat_row.TheConstants.{MOST_AMOUNT};
ghost use Rattle.chip_ledger.specs.LiveRow.{flag_of};
ghost use Rattle.chip_ledger.specs.SeatRow.{amount_of};
ghost use Rattle.chip_ledger.specs.PotRow.{stakes_of};
ghost use Rattle.chip_ledger.specs.Pots.{between, folded_above, joining};
ghost use Rattle.side_pots.specs.Levels.{levels_above};
ghost use Rattle.side_pots.specs.Stakes.{stakes_in};

use crate::levels::next_level;
use crate::stakes::Stakes;
use chip_ledger::{LiveRow, Seat, SeatRow};

/// The chips of a level's pot.
pub fn layer_chips(stakes: &Stakes<'_>, below: u64, level: u64) -> u64
    ensures sum { result ≡ between (stakes_in stakes.now) below level
        + joining (stakes_in stakes.now) level (levels_above (stakes_in stakes.now) level) }
    ensures bounded { result ≤ 20 * MOST_AMOUNT }
{
    chips_between(stakes.chips, below, level) + joining_chips(stakes, level)
}

/// All seats' chips above one level and up to another.
#[tactic(auto, using(chip_ledger::proofs::Stakes::between_more))]
fn chips_between(left: &SeatRow, below: u64, level: u64) -> u64
    ensures sum { (live : LiveRow) → result ≡ between (stakes_of left.now live) below level }
    ensures bounded { result ≤ 10 * MOST_AMOUNT }
{
    let mut chips = 0;
    for index in 0..left.seats {
        let seat = Seat { number: index + 1 };
        chips += left.get(seat).min(level).saturating_sub(below);
    }
    chips
}

/// The chips above a level that join its pot: those of folded seats, if no level is higher.
fn joining_chips(stakes: &Stakes<'_>, level: u64) -> u64
    ensures sum { result
        ≡ joining (stakes_in stakes.now) level (levels_above (stakes_in stakes.now) level) }
    ensures bounded { result ≤ 10 * MOST_AMOUNT }
{
    match next_level(stakes, level) {
        Some(_) => 0,
        None => folded_chips_above(stakes, level),
    }
}

/// The chips of folded seats above a level.
#[tactic(auto, using(chip_ledger::proofs::Stakes::folded_above_more))]
fn folded_chips_above(stakes: &Stakes<'_>, level: u64) -> u64
    ensures sum { result ≡ folded_above (stakes_in stakes.now) level }
    ensures bounded { result ≤ 10 * MOST_AMOUNT }
{
    let mut chips = 0;
    for index in 0..stakes.chips.seats {
        let seat = Seat { number: index + 1 };
        if !stakes.live.get(seat) {
            chips += stakes.chips.get(seat).saturating_sub(level);
        }
    }
    chips
}

/// The live seats that reach a level.
pub fn reaching_row(stakes: &Stakes<'_>, level: u64) -> LiveRow
    ensures seats { result.seats ≡ stakes.now.chips.now.seats }
    ensures flags { (n : ℕ) → 1 ≤ n → n ≤ stakes.now.chips.now.seats
        → flag_of result n
        ≡ (flag_of stakes.now.live.now n && nat_le level (amount_of stakes.now.chips.now n)) }
{
    let mut row = LiveRow::new(stakes.chips.seats);
    for index in 0..stakes.chips.seats {
        let seat = Seat { number: index + 1 };
        row.set(
            seat,
            stakes.live.get(seat) && level <= stakes.chips.get(seat),
        );
    }
    row
}
