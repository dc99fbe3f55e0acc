//! The high order of the short deck, with a flush above a full house.
use card_set::{CardRow, CardSet};
use hand_order::{FlushRank, HandOrder, LowStraight, Score, best_high, hand_points};

/// The order of short-deck hold'em, played with 36 cards from six to ace. The ace is low only in
/// A6789, and suits never break ties.
#[derive(Clone, Copy, Debug)]
pub struct ShortDeckHigh;

impl HandOrder for ShortDeckHigh {
    ghost use Rattle.high_rank.specs.High.{IsHand};
    ghost use Rattle.high_rank.specs.ShortDeck.{IsWeaker, points};
    ghost use Rattle.high_rank.specs.ShortDeckLaw.{lawful_short_deck};

    ghost HELD = { 5 };

    ghost is_hand = { IsHand };

    ghost is_weaker = { IsWeaker };

    ghost points = { points };

    const HELD: u8 = 5;

    fn score(cards: &CardRow) -> Option<Score> {
        Some(Score {
            points: hand_points(cards, LowStraight::NineHigh, FlushRank::AboveFullHouse),
        })
    }

    fn best_set(cards: &CardSet) -> Option<Score> {
        Some(Score {
            points: best_high(cards, LowStraight::NineHigh, FlushRank::AboveFullHouse),
        })
    }

    ghost lawful = { lawful_short_deck };
}
