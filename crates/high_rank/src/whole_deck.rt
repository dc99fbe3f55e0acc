//! The high order: the better class, then the higher ranks, with ranks that occur more often first.
use card_set::{CardRow, CardSet};
use hand_order::{FlushRank, HandOrder, LowStraight, Score, best_high, hand_points};

/// The order of hold'em, Omaha and stud. The ace is low only in A2345, and suits never break ties.
#[derive(Clone, Copy, Debug)]
pub struct High;

impl HandOrder for High {
    ghost use Rattle.high_rank.specs.High.{IsHand, IsWeaker, points};
    ghost use Rattle.high_rank.specs.HighLaw.{lawful_high};

    ghost HELD = { 5 };

    ghost is_hand = { IsHand };

    ghost is_weaker = { IsWeaker };

    ghost points = { points };

    const HELD: u8 = 5;

    fn score(cards: &CardRow) -> Option<Score> {
        Some(Score {
            points: hand_points(cards, LowStraight::FiveHigh, FlushRank::BelowFullHouse),
        })
    }

    fn best_set(cards: &CardSet) -> Option<Score> {
        Some(Score {
            points: best_high(cards, LowStraight::FiveHigh, FlushRank::BelowFullHouse),
        })
    }

    ghost lawful = { lawful_high };
}
