//! The high order of up-cards, in which straights and flushes do not count.
ghost use Rattle.std.specs.Prelude.{◌≡◌, ◌<◌, ◌-◌, List, length, ◌↔◌};
ghost use Rattle.card_set.specs.declared.card.Card.{Card};
ghost use Rattle.card_set.specs.Classes.{classes_above};
ghost use Rattle.card_set.specs.Row.{cards_of};
ghost use Rattle.card_set.specs.UpCards.{AreUpCards, IsWeakerUpHigh};
ghost use Rattle.high_rank.specs.UpHigh.{up_high_points, up_high_table};

use card_set::CardRow;
use hand_order::{Ace, Score, count_of_ranks, make_points, ranks_of};

/// How good up-cards are if high cards are good: four of a kind, three of a kind, two pair, pair,
/// high card, then the ranks. Only compare scores of the same number of up-cards.
pub fn up_high(cards: &CardRow) -> Score
    requires { AreUpCards (cards_of cards.now) }
    ensures points { result.points ≡ up_high_points (cards_of cards.now) }
    ensures ordered { (other : List Card) → AreUpCards other
        → length other ≡ length (cards_of cards.now)
        → ((up_high_points other < result.points) ↔ IsWeakerUpHigh other (cards_of cards.now)) }
{
    let fours = count_of_ranks(cards, Ace::High, 4);
    let threes = count_of_ranks(cards, Ace::High, 3);
    let pairs = count_of_ranks(cards, Ace::High, 2);
    let ranks = ranks_of(cards, Ace::High);
    Score {
        points: make_points(up_class(fours, threes, pairs), ranks.as_slice()),
    }
}

// The classes of up-cards; the best has the greatest number.
fn up_class(fours: usize, threes: usize, pairs: usize) -> u32
    ensures { result ≡ 4 - classes_above (up_high_table fours threes pairs) }
{
    if fours == 1 {
        4
    } else if threes == 1 && pairs == 0 {
        3
    } else if pairs == 2 {
        2
    } else if pairs == 1 && threes == 0 {
        1
    } else {
        0
    }
}
