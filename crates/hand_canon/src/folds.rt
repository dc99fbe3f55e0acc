//! Which seats have folded, read from the moves of a trace.
ghost use Rattle.std.specs.Prelude.{◌≡◌, ◌≤◌, ℕ, ◌&&◌, ◌||◌};
ghost use Rattle.std.specs.List.{list_any};
ghost use Rattle.chip_ledger.specs.LiveRow.{flag_of};
ghost use Rattle.hand_canon.specs.RowTests.{is_fold_before, is_fold_of, unfolded_count};

use chip_ledger::{LiveRow, Seat};
use play_event::Move;

/// Which seats, of ten, fold before a street.
pub fn folds_before(moves: &[Move], street: u8) -> LiveRow
    ensures seats { result.seats ≡ 10 }
    ensures flags { (n : ℕ)
        → 1 ≤ n → flag_of result n ≡ list_any (is_fold_before street n) moves.now }
{
    let mut folded = LiveRow::new(10);
    for played in moves {
        mark_fold(&mut folded, *played, played.street < street);
    }
    folded
}

/// Which seats, of ten, fold.
pub(crate) fn folds(moves: &[Move]) -> LiveRow
    ensures { (n : ℕ) → 1 ≤ n → flag_of result n ≡ list_any (is_fold_of n) moves.now }
{
    let mut folded = LiveRow::new(10);
    for played in moves {
        mark_fold(&mut folded, *played, true);
    }
    folded
}

// Marks the seat of a move as folded, if the move counts and is a fold.
fn mark_fold(folded: &mut LiveRow, played: Move, counts: bool)
    requires { folded.old.seats ≡ 10 }
    ensures seats { folded.new.seats ≡ 10 }
    ensures flags { (n : ℕ)
        → 1 ≤ n → flag_of folded.new n ≡ (flag_of folded.old n || (counts && is_fold_of n played)) }
{
    if counts && played.act.is_fold() {
        folded.set(played.seat, true);
    }
}

/// How many of the first `seats` seats have not folded.
pub(crate) fn count_unfolded(folded: &LiveRow, seats: u8) -> u8
    requires { seats ≤ 10 }
    ensures { result ≡ unfolded_count folded.now seats }
{
    let mut count = 0;
    for index in 0..seats {
        let seat = Seat { number: index + 1 };
        count += u8::from(!folded.get(seat));
    }
    count
}
