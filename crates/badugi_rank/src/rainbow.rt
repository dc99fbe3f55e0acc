//! Finds the best choice of badugi: from each suit one rank that is still free, or none.
ghost use Rattle.std.specs.Prelude.{◌≡◌, List, Some};
ghost use Rattle.card_set.specs.declared.card.Card.{Card};
ghost use Rattle.card_set.specs.CardSet.{count_of, IsListing};
ghost use Rattle.badugi_rank.specs.Badugi.{points};
ghost use Rattle.badugi_rank.specs.Rainbow.{IsMost, points_of_ranks};

use card_set::{CardSet, Suit};
use hand_order::{Score, clear, lowest_ranks, make_points, top};

/// The score of four cards in badugi. The rank masks of the four suits are all that is needed.
pub fn best_rainbow(cards: &CardSet) -> Score
    requires { count_of cards.now ≡ 4 }
    ensures { (listing : List Card) → IsListing cards.now listing
        → Some result.points ≡ points listing }
{
    let clubs = cards.rank_mask(Suit::C);
    let others = [
        cards.rank_mask(Suit::D),
        cards.rank_mask(Suit::H),
        cards.rank_mask(Suit::S),
    ];
    Score {
        points: best_taken(clubs, &others, 0),
    }
}

// The most points that can be had with the ranks taken so far, at most one of those that are left,
// and at most one of each other suit.
fn best_taken(left: u16, others: &[u16], taken: u16) -> u32
    ensures { IsMost left others.now taken result }
{
    if left == 0 {
        return match others {
            [] => taken_points(taken),
            [mask, rest @ ..] => best_taken(*mask & !taken, rest, taken),
        };
    }
    let place = top(left);
    best_taken(clear(left, place), others, taken).max(best_taken(0, others, taken | 1 << place))
}

// The points of a choice with these ranks.
fn taken_points(taken: u16) -> u32
    ensures { result ≡ points_of_ranks taken }
{
    let ranks = lowest_ranks(taken, 13, 1, 4);
    0x100_0000 - make_points(4 - ranks.as_slice().len() as u32, ranks.as_slice())
}
