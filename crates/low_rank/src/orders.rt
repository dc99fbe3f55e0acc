//! The low orders in which the ace is low and straights and flushes do not count.
use crate::eight::best_eight;
use crate::razz::best_razz;
use card_set::{CardRow, CardSet};
use hand_order::{HandOrder, Score};

/// The order of razz, over any five cards: no pair is best, and the lower ranks are better.
#[derive(Clone, Copy, Debug)]
pub struct RazzLow;

impl HandOrder for RazzLow {
    ghost use Rattle.low_rank.specs.Razz.{IsHand, IsWeaker, points};
    ghost use Rattle.low_rank.specs.LowLaw.{lawful_razz};

    ghost HELD = { 5 };

    ghost is_hand = { IsHand };

    ghost is_weaker = { IsWeaker };

    ghost points = { points };

    const HELD: u8 = 5;

    fn score(cards: &CardRow) -> Option<Score> {
        Some(best_razz(&CardSet::of(cards)))
    }

    fn best_set(cards: &CardSet) -> Option<Score> {
        Some(best_razz(cards))
    }

    ghost lawful = { lawful_razz };
}

/// The order of eight-or-better: five different ranks of at most eight. Other cards have no score.
#[derive(Clone, Copy, Debug)]
pub struct EightLow;

impl HandOrder for EightLow {
    ghost use Rattle.low_rank.specs.EightLow.{IsHand, IsWeaker, points};
    ghost use Rattle.low_rank.specs.LowLaw.{lawful_eight_low};

    ghost HELD = { 5 };

    ghost is_hand = { IsHand };

    ghost is_weaker = { IsWeaker };

    ghost points = { points };

    const HELD: u8 = 5;

    fn score(cards: &CardRow) -> Option<Score> {
        best_eight(&CardSet::of(cards))
    }

    fn best_set(cards: &CardSet) -> Option<Score> {
        best_eight(cards)
    }

    ghost lawful = { lawful_eight_low };
}
