//! Who is shown at the end of a hand, and who mucks, seat by seat.
ghost use Rattle.std.specs.Prelude.{◌≡◌, ◌≤◌, ℕ};
ghost use Rattle.chip_ledger.specs.LiveRow.{flag_of};
ghost use Rattle.replay_core.specs.EndRows.{is_mucked_by, is_shown_by};
ghost use Rattle.replay_core.specs.EndRows as end_rows;

use chip_ledger::{LiveRow, Seat};

/// Which seats are shown: if the hand is contested, the live seats that did not muck and whose
/// cards are all known.
pub fn shown_row(live: &LiveRow, mucked: &LiveRow, unknown: &LiveRow) -> LiveRow
    ensures seats { result.seats ≡ live.now.seats }
    ensures flags { (n : ℕ) → 1 ≤ n → n ≤ live.now.seats
        → flag_of result n ≡ is_shown_by live.now mucked.now unknown.now n }
{
    let contested = count_flags(live) >= 2;
    let mut row = LiveRow::new(live.seats);
    for index in 0..live.seats {
        let seat = Seat { number: index + 1 };
        let is_live = live.get(seat);
        let is_mucked = mucked.get(seat);
        let is_unknown = unknown.get(seat);
        row.set(seat, contested && is_live && !is_mucked && !is_unknown);
    }
    row
}

/// Which seats muck: if the hand is contested, the live seats that are not shown.
pub fn mucked_row(live: &LiveRow, shown: &LiveRow) -> LiveRow
    ensures seats { result.seats ≡ live.now.seats }
    ensures flags { (n : ℕ) → 1 ≤ n → n ≤ live.now.seats
        → flag_of result n ≡ is_mucked_by live.now shown.now n }
{
    let contested = count_flags(live) >= 2;
    let mut row = LiveRow::new(live.seats);
    for index in 0..live.seats {
        let seat = Seat { number: index + 1 };
        let is_live = live.get(seat);
        let is_shown = shown.get(seat);
        row.set(seat, contested && is_live && !is_shown);
    }
    row
}

// How many seats of the row have the flag.
#[tactic(auto, using(chip_ledger::proofs::SeatLists::count_more))]
fn count_flags(row: &LiveRow) -> u8
    ensures { result ≡ end_rows.flag_count row.now }
{
    let mut count: u8 = 0;
    for index in 0..row.seats {
        let seat = Seat { number: index + 1 };
        if row.get(seat) {
            count += 1;
        }
    }
    count
}
