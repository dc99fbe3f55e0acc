//! Finds the best low hand of at most eight from the ranks of a set: the five lowest, if there are
//! five.
ghost use Rattle.std.specs.Prelude.{◌≡◌, ◌≤◌, List};
ghost use Rattle.std.specs.Option.{option_map};
ghost use Rattle.card_set.specs.declared.card.Card.{Card};
ghost use Rattle.card_set.specs.CardSet.{count_of, IsListing};
ghost use Rattle.hand_order.specs.Choices.{choices};
ghost use Rattle.hand_order.specs.Points.{greatest};
ghost use Rattle.low_rank.specs.EightLow.{points};

use card_set::{CardSet, Suit};
use hand_order::{Score, lowest_ranks, make_points};

// The mask of the ace and of the ranks from two to eight.
const LOW_RANKS: u16 = 0x107F;

/// The score of the best five of a set's cards in eight-or-better, or `None` if no five qualify.
pub fn best_eight(cards: &CardSet) -> Option<Score>
    requires { 5 ≤ count_of cards.now }
    ensures { (listing : List Card) → IsListing cards.now listing
        → option_map (λ s. s.points) result ≡ greatest points (choices 5 listing) }
{
    let clubs = cards.rank_mask(Suit::C);
    let diamonds = cards.rank_mask(Suit::D);
    let hearts = cards.rank_mask(Suit::H);
    let spades = cards.rank_mask(Suit::S);
    let all = clubs | diamonds | hearts | spades;
    if (all & LOW_RANKS).count_ones() < 5 {
        return None;
    }
    let ranks = lowest_ranks(all, 8, 1, 5);
    Some(Score {
        points: 0x100_0000 - make_points(0, ranks.as_slice()),
    })
}
