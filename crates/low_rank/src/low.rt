//! Scores for low cards: the greatest number minus the number that the class and the ranks make.
ghost use Rattle.std.specs.Prelude.{◌≡◌, ◌<◌, ◌≤◌, ◌-◌, List, length, ◌↔◌};
ghost use Rattle.card_set.specs.declared.card.Card.{Card};
ghost use Rattle.card_set.specs.Classes.{classes_above};
ghost use Rattle.card_set.specs.Different.{AllDifferent};
ghost use Rattle.card_set.specs.Row.{cards_of};
ghost use Rattle.card_set.specs.UpCards.{AreUpCards, IsWeakerLow};
ghost use Rattle.low_rank.specs.Low.{low_points, low_table};

use card_set::CardRow;
use hand_order::{Ace, Score, count_of_ranks, make_points, ranks_of};

/// How good up-cards are if low cards are good, with the ace low: no pair, pair, two pair, three of
/// a kind, four of a kind, then the ranks. Only compare scores of the same number of up-cards.
pub fn up_low(cards: &CardRow) -> Score
    requires { AreUpCards (cards_of cards.now) }
    ensures points { result.points ≡ low_points (cards_of cards.now) }
    ensures ordered { (other : List Card) → AreUpCards other
        → length other ≡ length (cards_of cards.now)
        → ((low_points other < result.points) ↔ IsWeakerLow other (cards_of cards.now)) }
{
    low_score(cards)
}

/// The score of at most five cards if low cards are good.
pub fn low_score(cards: &CardRow) -> Score
    requires few { length (cards_of cards.now) ≤ 5 }
    requires different { AllDifferent (cards_of cards.now) }
    ensures { result.points ≡ low_points (cards_of cards.now) }
{
    let fours = count_of_ranks(cards, Ace::Low, 4);
    let threes = count_of_ranks(cards, Ace::Low, 3);
    let pairs = count_of_ranks(cards, Ace::Low, 2);
    let ranks = ranks_of(cards, Ace::Low);
    Score {
        points: 0x100_0000 - make_points(class_of(fours, threes, pairs), ranks.as_slice()),
    }
}

// The classes of low cards; the best has the smallest number.
fn class_of(fours: usize, threes: usize, pairs: usize) -> u32
    requires { classes_above (low_table fours threes pairs) ≤ 5 }
    ensures { result ≡ classes_above (low_table fours threes pairs) }
{
    if fours == 0 && threes == 0 && pairs == 0 {
        0
    } else if pairs == 1 && threes == 0 {
        1
    } else if pairs == 2 {
        2
    } else if threes == 1 && pairs == 0 {
        3
    } else if threes == 1 && pairs == 1 {
        4
    } else {
        5
    }
}
