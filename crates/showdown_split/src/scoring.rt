//! The score of each shown seat: its best choice of its cards and the board's.
ghost use Rattle.std.specs.Prelude.{◌≡◌, ◌≤◌, ◌++◌, ℕ, true, false, None};
ghost use Rattle.std.specs.Option.{option_map};
ghost use Rattle.card_set.specs.Different.{AllDifferent};
ghost use Rattle.card_set.specs.Row.{cards_of};
ghost use Rattle.chip_ledger.specs.LiveRow.{flag_of};
ghost use Rattle.hand_order.specs.Best.{IsPointsOfHolding};
ghost use Rattle.hand_order.specs.Choices.{CanPick, allowed};
ghost use Rattle.showdown_split.specs.Alike.{AreScored};
ghost use Rattle.showdown_split.specs.Hands.{holding, showdown_of};
ghost use Rattle.showdown_split.specs.Playable.{ArePlayable};
ghost use Rattle.showdown_split.specs.Scores.{points_of};

use crate::scores::Scores;
use card_set::CardRow;
use chip_ledger::{LiveRow, Seat};
use hand_order::{HandOrder, Pick, Score, best_of};
use play_event::HandRow;
use variant_table::Variant;

/// The scores of the shown seats in a game: in its first order of hands, and in its second if it
/// pays by two.
pub fn seat_scores<V: Variant>(
    hands: &HandRow,
    board: &CardRow,
    shown: &LiveRow,
) -> (Scores, Scores)
    requires { ArePlayable V.Award.HELD V.PICK hands.now board.now shown.now }
    ensures { AreScored V.CODE (showdown_of hands.now board.now shown.now)
        (points_of result.0) (points_of result.1) }
{
    let high = scores_of::<V::Award>(hands, board, shown, V::PICK);
    let low = low_scores::<V>(hands, board, shown);
    (high, low)
}

// The scores of the shown seats in the second order of hands, if the game pays by two; else none.
fn low_scores<V: Variant>(hands: &HandRow, board: &CardRow, shown: &LiveRow) -> Scores
    requires { ArePlayable V.Second.HELD V.PICK hands.now board.now shown.now }
    ensures two { V.SPLIT ≡ true
        → (n : ℕ) → 1 ≤ n → n ≤ shown.now.seats → flag_of shown.now n ≡ true
        → IsPointsOfHolding V.Second.is_hand V.Second.is_weaker V.Second.points
        (allowed V.PICK (holding hands.now n) (cards_of board.now)) (points_of result n) }
    ensures one { V.SPLIT ≡ false → (n : ℕ) → points_of result n ≡ None }
{
    if V::SPLIT {
        scores_of::<V::Second>(hands, board, shown, V::PICK)
    } else {
        Scores::new()
    }
}

// The scores of the shown seats in an order.
fn scores_of<O: HandOrder>(hands: &HandRow, board: &CardRow, shown: &LiveRow, pick: Pick) -> Scores
    requires { ArePlayable O.HELD pick hands.now board.now shown.now }
    ensures { (n : ℕ) → 1 ≤ n → n ≤ shown.now.seats → flag_of shown.now n ≡ true
        → IsPointsOfHolding O.is_hand O.is_weaker O.points
        (allowed pick (holding hands.now n) (cards_of board.now)) (points_of result n) }
{
    let mut scores = Scores::new();
    for index in 0..shown.seats {
        let seat = Seat { number: index + 1 };
        if shown.get(seat) {
            scores.set(seat, score_of::<O>(hands, board, pick, seat));
        }
    }
    scores
}

// The score of a seat.
fn score_of<O: HandOrder>(hands: &HandRow, board: &CardRow, pick: Pick, seat: Seat) -> Option<Score>
    requires usable { CanPick O.HELD pick (holding hands.now seat.number) (cards_of board.now) }
    requires different { AllDifferent (holding hands.now seat.number ++ cards_of board.now) }
    ensures { IsPointsOfHolding O.is_hand O.is_weaker O.points
        (allowed pick (holding hands.now seat.number) (cards_of board.now))
        (option_map (λ s. s.points) result) }
{
    let hole = hands.hands[seat.number as usize - 1].known_cards();
    best_of::<O>(&hole, board, pick)
}
