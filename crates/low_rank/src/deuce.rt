//! Deuce-to-seven: the high order reversed.
ghost use Rattle.std.specs.Prelude.{◌≡◌, Some};
ghost use Rattle.card_set.specs.Row.{cards_of};
ghost use Rattle.hand_order.specs.Choices.{AreHeld};
ghost use Rattle.low_rank.specs.DeuceSeven.{points};

use card_set::{CardRow, CardSet};
use hand_order::{FlushRank, HandOrder, LowStraight, Score, Scorer, best_listed, hand_points};

/// The order of deuce-to-seven draw. The ace is always high, so A2345 is not a straight.
#[derive(Clone, Copy, Debug)]
pub struct DeuceSeven;

impl HandOrder for DeuceSeven {
    ghost use Rattle.low_rank.specs.DeuceSeven.{IsHand, IsWeaker};
    ghost use Rattle.low_rank.specs.LowLaw.{lawful_deuce_seven};

    ghost HELD = { 5 };

    ghost is_hand = { IsHand };

    ghost is_weaker = { IsWeaker };

    ghost points = { points };

    const HELD: u8 = 5;

    fn score(cards: &CardRow) -> Option<Score> {
        Some(deuce_score(cards))
    }

    fn best_set(cards: &CardSet) -> Option<Score> {
        best_listed(&DeuceHands, cards, 5)
    }

    ghost lawful = { lawful_deuce_seven };
}

impl Scorer for DeuceHands {
    ghost accepts = { λ scorer cards. AreHeld 5 cards };

    ghost points = { λ scorer cards. points cards };

    fn score(&self, chosen: &CardRow) -> Option<Score> {
        Some(deuce_score(chosen))
    }
}

// Judges a whole hand.
#[derive(Drop)]
struct DeuceHands;

// The score of a hand.
fn deuce_score(cards: &CardRow) -> Score
    requires { AreHeld 5 (cards_of cards.now) }
    ensures { Some result.points ≡ points (cards_of cards.now) }
{
    Score {
        points: 0x100_0000 - hand_points(cards, LowStraight::Nothing, FlushRank::BelowFullHouse),
    }
}
