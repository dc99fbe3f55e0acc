//! Finds the best hand of razz from how often ranks occur: in the best class that can be made, the
//! lowest ranks.
ghost use Rattle.std.specs.Prelude.{◌≡◌, ◌<◌, ◌≤◌, ◌+◌, ◌⊎◌, ◌++◌, ℕ, List, length, Some};
ghost use Rattle.std.specs.Int.{bit_at};
ghost use Rattle.card_set.specs.declared.card.Card.{Card};
ghost use Rattle.card_set.specs.CardSet.{count_of, IsListing};
ghost use Rattle.hand_order.specs.Choices.{choices};
ghost use Rattle.hand_order.specs.Heights.{heights_of};
ghost use Rattle.hand_order.specs.Lowest.{lowest};
ghost use Rattle.hand_order.specs.Points.{greatest};
ghost use Rattle.low_rank.specs.Razz.{points};
ghost use Rattle.low_rank.specs.RazzBest.{
  HasClass,
  both_ranks,
  class_ranks,
  low_count,
  often,
  often_ranks,
  seldom,
  seldom_ranks,
};
ghost use Rattle.low_rank.specs.RazzBest as razz_best;

use card_set::{CardSet, Suit};
use hand_order::{RankRow, Score, make_points};

/// The score of the best five of a set's cards in razz. The choices of five are not listed.
pub fn best_razz(cards: &CardSet) -> Score
    requires { 5 ≤ count_of cards.now }
    ensures { (listing : List Card) → IsListing cards.now listing
        → Some result.points ≡ greatest points (choices 5 listing) }
{
    let masks = SuitMasks {
        clubs: cards.rank_mask(Suit::C),
        diamonds: cards.rank_mask(Suit::D),
        hearts: cards.rank_mask(Suit::H),
        spades: cards.rank_mask(Suit::S),
    };
    let best = best_class(&masks, 0);
    Score {
        points: 0x100_0000 - make_points(best.class, best.ranks.as_slice()),
    }
}

/// The ranks of each suit as masks: bit 0 is the two, and bit 12 the ace.
#[derive(Clone, Copy, Debug)]
pub struct SuitMasks {
    pub clubs: u16,
    pub diamonds: u16,
    pub hearts: u16,
    pub spades: u16,
}

// A class, and the ranks that decide within it.
#[derive(Clone, Copy, Debug)]
struct LowRanks {
    class: u32,
    ranks: RankRow,
}

// Which ranks a class has: those that occur more often first, then the others.
#[derive(Clone, Copy, Debug)]
struct Shape {
    often: u8,
    often_ranks: u8,
    seldom: u8,
    seldom_ranks: u8,
}

// The first class, from this one on, that the ranks can make. They can always make the last.
fn best_class(masks: &SuitMasks, class: u32) -> LowRanks
    requires { class ≤ 5 }
    ensures within { result.class ≤ 5 }
    ensures ranks { heights_of result.ranks ≡ class_ranks (low_count masks.now) result.class }
    ensures none { (better : ℕ) → class ≤ better → better < result.class
        → HasClass (low_count masks.now) better → ⊥ }
    ensures made { (result.class ≡ 5) ⊎ HasClass (low_count masks.now) result.class }
{
    let shape = shape_of(class);
    let ranks = lowest_of_shape(masks, &shape);
    if class == 5 || ranks.as_slice().len() == usize::from(shape.often_ranks + shape.seldom_ranks) {
        return LowRanks { class, ranks };
    }
    best_class(masks, class + 1)
}

// The shape of each class: five ranks, a pair, two pair, three of a kind, a full house, four of a
// kind.
fn shape_of(class: u32) -> Shape
    ensures often { result.often ≡ often class }
    ensures often_ranks { result.often_ranks ≡ often_ranks class }
    ensures seldom { result.seldom ≡ seldom class }
    ensures seldom_ranks { result.seldom_ranks ≡ seldom_ranks class }
{
    match class {
        0 => Shape {
            often: 2,
            often_ranks: 0,
            seldom: 1,
            seldom_ranks: 5,
        },
        1 => Shape {
            often: 2,
            often_ranks: 1,
            seldom: 1,
            seldom_ranks: 3,
        },
        2 => Shape {
            often: 2,
            often_ranks: 2,
            seldom: 1,
            seldom_ranks: 1,
        },
        3 => Shape {
            often: 3,
            often_ranks: 1,
            seldom: 1,
            seldom_ranks: 2,
        },
        4 => Shape {
            often: 3,
            often_ranks: 1,
            seldom: 2,
            seldom_ranks: 1,
        },
        _ => Shape {
            often: 4,
            often_ranks: 1,
            seldom: 1,
            seldom_ranks: 1,
        },
    }
}

// The lowest ranks that can make a shape.
fn lowest_of_shape(masks: &SuitMasks, shape: &Shape) -> RankRow
    requires { shape.now.often_ranks + shape.now.seldom_ranks ≤ 5 }
    ensures { heights_of result ≡ both_ranks (low_count masks.now)
        shape.now.often shape.now.often_ranks shape.now.seldom shape.now.seldom_ranks }
{
    let first = lowest_free(
        masks,
        shape.often,
        &RankRow::new(),
        13,
        1,
        shape.often_ranks,
    );
    let others = lowest_free(masks, shape.seldom, &first, 13, 1, shape.seldom_ranks);
    joined(&first, &others)
}

// The `need` lowest ranks that occur often enough and are not among the others, the highest of them
// first, among `heights` heights from `from` on.
fn lowest_free(
    masks: &SuitMasks,
    least: u8,
    others: &RankRow,
    heights: u8,
    from: u8,
    need: u8,
) -> RankRow
    requires first { 1 ≤ from }
    requires last { from + heights ≤ 14 }
    requires few { need ≤ 5 }
    ensures list { heights_of result
        ≡ lowest (razz_best.is_free (low_count masks.now) least (heights_of others.now))
        heights from need }
    ensures long { length (heights_of result) ≤ need }
{
    if least == 1 && others.as_slice().is_empty() {
        let all = masks.clubs | masks.diamonds | masks.hearts | masks.spades;
        return hand_order::lowest_ranks(all, heights, from, need);
    }
    if heights == 0 || need == 0 {
        return RankRow::new();
    }
    if !can_use_rank(masks, least, others, from) {
        return lowest_free(masks, least, others, heights - 1, from + 1, need);
    }
    let mut row = lowest_free(masks, least, others, heights - 1, from + 1, need - 1);
    row.push(from);
    row
}

// Whether a rank occurs in enough suits and is not among the others.
fn can_use_rank(masks: &SuitMasks, least: u8, others: &RankRow, height: u8) -> bool
    requires first { 1 ≤ height }
    requires last { height ≤ 13 }
    ensures { result
        ≡ razz_best.is_free (low_count masks.now) least (heights_of others.now) height }
{
    let place = if height == 1 { 12 } else { height - 2 };
    let suits = bit_of(masks.clubs, place)
        + bit_of(masks.diamonds, place)
        + bit_of(masks.hearts, place)
        + bit_of(masks.spades, place);
    least <= suits && !contains_height(others.as_slice(), height)
}

// A bit of a mask: 1 if it is set.
fn bit_of(mask: u16, place: u8) -> u8
    requires { place < 16 }
    ensures bit { result ≡ bit_at mask place }
    ensures few { result ≤ 1 }
{
    (mask >> place & 1) as u8
}

// Whether a height is one of these.
fn contains_height(heights: &[u8], height: u8) -> bool
    ensures { result ≡ razz_best.is_height_of heights.now height }
{
    heights.iter().any(|other| *other == height)
}

// The heights of one row, followed by those of the other.
fn joined(first: &RankRow, others: &RankRow) -> RankRow
    requires { length (heights_of first.now) + length (heights_of others.now) ≤ 5 }
    ensures { heights_of result ≡ heights_of first.now ++ heights_of others.now }
{
    let mut row = *first;
    for height in others.as_slice() {
        row.push(*height);
    }
    row
}
