//! The winners are the seats that contend and have the best score.
ghost use Rattle.std.specs.Prelude.{◌≡◌, ◌≤◌, ◌&&◌, ℕ, if◌then◌else◌};
ghost use Rattle.std.specs.Option.{option_map};
ghost use Rattle.chip_ledger.specs.LiveRow.{flag_of};
ghost use Rattle.hand_order.specs.Points.{better};
ghost use Rattle.showdown_split.specs.Scores.{points_of};
ghost use Rattle.showdown_split.specs.SeatPoints.{best_to};
ghost use Rattle.showdown_split.specs.SeatPoints as seat_points;

use crate::scores::Scores;
use chip_ledger::{LiveRow, Seat};
use hand_order::{Score, better_score};

/// The seats that contend and that have the best score.
pub fn winners(contending: &LiveRow, scores: &Scores) -> LiveRow
    ensures seats { result.seats ≡ contending.now.seats }
    ensures flags { (n : ℕ) → 1 ≤ n → n ≤ contending.now.seats → flag_of result n
        ≡ (flag_of contending.now n && seat_points.is_same (points_of scores.now n)
        (best_to (flag_of contending.now) (points_of scores.now) contending.now.seats)) }
{
    let most = best(contending, scores);
    let mut row = LiveRow::new(contending.seats);
    for index in 0..contending.seats {
        let seat = Seat { number: index + 1 };
        row.set(
            seat,
            contending.get(seat) && are_equal_scores(scores.get(seat), most),
        );
    }
    row
}

/// The best score of the seats that contend; `None` if none of them has a hand.
pub fn best(contending: &LiveRow, scores: &Scores) -> Option<Score>
    ensures { option_map (λ s. s.points) result
        ≡ best_to (flag_of contending.now) (points_of scores.now) contending.now.seats }
{
    let mut best = None;
    for index in 0..contending.seats {
        let seat = Seat { number: index + 1 };
        best = better_of_seat(best, contending, scores, seat);
    }
    best
}

// The better of a score and that of a seat, if the seat contends.
fn better_of_seat(
    score: Option<Score>,
    contending: &LiveRow,
    scores: &Scores,
    seat: Seat,
) -> Option<Score>
    requires { seat.number ≤ contending.now.seats }
    ensures { let before = option_map (λ s. s.points) score in
        option_map (λ s. s.points) result
        ≡ (if flag_of contending.now seat.number
        then better before (points_of scores.now seat.number) else before) }
{
    if contending.get(seat) {
        better_score(score, scores.get(seat))
    } else {
        score
    }
}

// Whether both are the same score, or both are missing.
fn are_equal_scores(first: Option<Score>, second: Option<Score>) -> bool
    ensures { result
        ≡ seat_points.is_same (option_map (λ s. s.points) first)
        (option_map (λ s. s.points) second) }
{
    match (first, second) {
        (None, None) => true,
        (Some(x), Some(y)) => x.points == y.points,
        (None, Some(_)) | (Some(_), None) => false,
    }
}
