//! A pot goes to the only seat that may win it, or to the shown seats among those that may.
ghost use Rattle.std.specs.Prelude.{◌≡◌, ◌≢◌, ◌≤◌, ◌&&◌, ℕ, true, [], IfSome, IfNone, OnSome, false, if◌then◌else◌};
ghost use Rattle.chip_ledger.specs.declared.seat_row.TheConstants.{MOST_AMOUNT};
ghost use Rattle.chip_ledger.specs.LiveRow.{flag_of, flagged};
ghost use Rattle.chip_ledger.specs.PotRow.{plain};
ghost use Rattle.chip_ledger.specs.SeatRow.{amount_of, total_of};
ghost use Rattle.variant_table.specs.Shares.{AreContested, AreShares, is_contender, is_unshown};
ghost use Rattle.showdown_split.specs.Scores.{points_of};
ghost use Rattle.showdown_split.specs.SeatPoints.{is_flagged, ranking_by, shown_only};

use crate::division::{divide, flags_to, together};
use crate::scores::Scores;
use crate::winners::{best, winners};
use chip_ledger::{LiveRow, Pot, Seat, SeatRow};

/// What each seat gets of the pot; `None` if two or more seats may win it and none of them is
/// shown.
pub fn shares_of(pot: &Pot, shown: &LiveRow, high: &Scores, low: &Scores) -> Option<SeatRow>
    requires seats { pot.now.eligible.seats ≡ shown.now.seats }
    requires some { flagged pot.now.eligible ≢ [] }
    requires bounded { pot.now.chips ≤ MOST_AMOUNT }
    ensures seats { IfSome result (λ row. row.seats ≡ shown.now.seats) }
    ensures none { IfNone result (is_unshown (shown_only shown.now) (plain pot.now) ≡ true) }
    ensures some { OnSome result (is_unshown (shown_only shown.now) (plain pot.now) ≡ false) }
    ensures shares { IfSome result (λ row. AreShares shown.now.seats
        (is_contender (shown_only shown.now) (plain pot.now))
        (ranking_by (points_of high.now) (points_of low.now)) (plain pot.now) (amount_of row)) }
    ensures total { IfSome result (λ row. total_of row ≡ pot.now.chips) }
{
    if flags_to(&pot.eligible, pot.eligible.seats) == 1 {
        return Some(whole(pot));
    }
    let rivals = contending(pot, shown);
    if !rivals.any() {
        return None;
    }
    Some(contested(pot.chips, &rivals, high, low))
}

// All chips of the pot, for the seats that may win it.
fn whole(pot: &Pot) -> SeatRow
    requires { pot.now.chips ≤ MOST_AMOUNT }
    ensures seats { result.seats ≡ pot.now.eligible.seats }
    ensures amounts { (n : ℕ) → 1 ≤ n → n ≤ pot.now.eligible.seats
        → amount_of result n ≡ (if flag_of pot.now.eligible n then pot.now.chips else 0) }
{
    let mut row = SeatRow::new(pot.eligible.seats);
    for index in 0..pot.eligible.seats {
        let seat = Seat { number: index + 1 };
        row.set(seat, chips_if(pot.eligible.get(seat), pot.chips));
    }
    row
}

fn chips_if(flag: bool, chips: u64) -> u64
    ensures { result ≡ (if flag then chips else 0) }
{
    if flag { chips } else { 0 }
}

// What each seat gets of chips that some seats contend for: if one of them has a low hand, the
// chips are halved, and the odd chip goes to the high half.
fn contested(chips: u64, contending: &LiveRow, high: &Scores, low: &Scores) -> SeatRow
    requires some { flagged contending.now ≢ [] }
    requires bounded { chips ≤ MOST_AMOUNT }
    ensures seats { result.seats ≡ contending.now.seats }
    ensures shares { AreContested contending.now.seats (is_flagged contending.now)
        (ranking_by (points_of high.now) (points_of low.now)) chips (amount_of result) }
    ensures total { total_of result ≡ chips }
{
    match best(contending, low) {
        None => divide(&winners(contending, high), chips),
        Some(_) => together(
            &divide(&winners(contending, high), chips - chips / 2),
            &divide(&winners(contending, low), chips / 2),
        ),
    }
}

// The seats that may win the pot and are shown.
fn contending(pot: &Pot, shown: &LiveRow) -> LiveRow
    ensures seats { result.seats ≡ shown.now.seats }
    ensures flags { (n : ℕ) → 1 ≤ n → n ≤ shown.now.seats
        → flag_of result n ≡ (flag_of pot.now.eligible n && flag_of shown.now n) }
{
    let mut row = LiveRow::new(shown.seats);
    for index in 0..shown.seats {
        let seat = Seat { number: index + 1 };
        let may_win = pot.eligible.flags[seat.number as usize - 1];
        row.set(seat, may_win && shown.get(seat));
    }
    row
}
