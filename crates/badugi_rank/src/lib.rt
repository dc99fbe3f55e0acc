//! The order of badugi.
#![tactic(auto)]

mod rainbow;

use crate::rainbow::best_rainbow;
use card_set::{CardRow, CardSet};
use hand_order::{HandOrder, Score};

/// The order of badugi, over any four cards: the larger choice whose ranks and suits all differ
/// wins and, of choices with as many cards, the one with the lower ranks, compared from the top
/// down.
#[derive(Clone, Copy, Debug)]
pub struct Badugi;

impl HandOrder for Badugi {
    ghost use Rattle.badugi_rank.specs.Badugi.{IsHand, IsWeaker, points};
    ghost use Rattle.badugi_rank.specs.BadugiLaw.{lawful_badugi};

    ghost HELD = { 4 };

    ghost is_hand = { IsHand };

    ghost is_weaker = { IsWeaker };

    ghost points = { points };

    const HELD: u8 = 4;

    fn score(cards: &CardRow) -> Option<Score> {
        Some(best_rainbow(&CardSet::of(cards)))
    }

    fn best_set(cards: &CardSet) -> Option<Score> {
        Some(best_rainbow(cards))
    }

    ghost lawful = { lawful_badugi };
}
