//! The number that the ranks of a hand make: its class first, then its heights, the ranks that
//! occur more often first.
ghost use Rattle.std.specs.Prelude.{◌≡◌, ◌+◌, ◌*◌, ◌<◌, ◌≤◌, ◌^◌, ◌++◌, length};
ghost use Rattle.card_set.specs.Row.{cards_of};
ghost use Rattle.card_set.specs.Ranks.{falling_heights, occurring, ranks_of, times};
ghost use Rattle.hand_order.specs.Digits.{with_digits};
ghost use Rattle.hand_order.specs.Digits as points;
ghost use Rattle.hand_order.specs.Height.{height_with};
ghost use Rattle.hand_order.specs.Heights.{heights_of};

use crate::row::RankRow;
use card_set::{CardRow, Rank};

/// Whether the ace is high or low.
#[derive(Clone, Copy, Debug, PartialEq, Eq)]
pub enum Ace {
    High,
    Low,
}

/// How many ranks occur this number of times among the cards.
#[tactic(auto, using(card_set::proofs::Counted::ranks_occurring_count))]
pub fn count_of_ranks(cards: &CardRow, ace: Ace, occurrences: usize) -> usize
    ensures { result ≡ length (occurring (height_with ace) (cards_of cards.now) occurrences) }
{
    let heights = all_heights();
    heights
        .iter()
        .filter(|height| times_of(cards, ace, **height) == occurrences)
        .count()
}

/// The different heights of the cards: ranks that occur more often first, then the higher ones.
pub fn ranks_of(cards: &CardRow, ace: Ace) -> RankRow
    requires { length (cards_of cards.now) ≤ 5 }
    ensures { heights_of result ≡ ranks_of (height_with ace) (cards_of cards.now) }
{
    let mut row = RankRow::new();
    push_occurring(&mut row, cards, ace, 4);
    push_occurring(&mut row, cards, ace, 3);
    push_occurring(&mut row, cards, ace, 2);
    push_occurring(&mut row, cards, ace, 1);
    row
}

// Appends the heights that occur this number of times.
fn push_occurring(row: &mut RankRow, cards: &CardRow, ace: Ace, occurrences: usize)
    requires { length (heights_of row.old)
        + length (occurring (height_with ace) (cards_of cards.now) occurrences) ≤ 5 }
    ensures { heights_of row.new
        ≡ heights_of row.old ++ occurring (height_with ace) (cards_of cards.now) occurrences }
{
    let heights = all_heights();
    for height in heights {
        if times_of(cards, ace, height) == occurrences {
            row.push(height);
        }
    }
}

/// All heights, from that of a high ace down to that of a low ace.
#[tactic(auto, unfolding(card_set::specs::Ranks::falling_heights))]
pub fn all_heights() -> [u8; 14]
    ensures { result ≡ falling_heights }
{
    [14, 13, 12, 11, 10, 9, 8, 7, 6, 5, 4, 3, 2, 1]
}

/// How many of the cards have this height.
#[tactic(auto, unfolding(card_set::specs::Ranks::times))]
pub fn times_of(cards: &CardRow, ace: Ace, height: u8) -> usize
    ensures { result ≡ times (height_with ace) (cards_of cards.now) height }
{
    cards
        .as_slice()
        .iter()
        .filter(|card| height_of(card.rank, ace) == height)
        .count()
}

/// The height of a rank: 2 to 14, or 1 for a low ace.
pub fn height_of(rank: Rank, ace: Ace) -> u8
    ensures { result ≡ height_with ace rank }
{
    match rank {
        Rank::Two => 2,
        Rank::Three => 3,
        Rank::Four => 4,
        Rank::Five => 5,
        Rank::Six => 6,
        Rank::Seven => 7,
        Rank::Eight => 8,
        Rank::Nine => 9,
        Rank::Ten => 10,
        Rank::Jack => 11,
        Rank::Queen => 12,
        Rank::King => 13,
        Rank::Ace => match ace {
            Ace::High => 14,
            Ace::Low => 1,
        },
    }
}

/// The number that a class and these heights make. For the same class and the same number of
/// heights, it is lower if the first height that differs is lower.
pub fn make_points(class: u32, heights: &[u8]) -> u32
    requires class { class ≤ 15 }
    requires below { with_digits 0 heights.now < 16 ^ 5 }
    ensures { result ≡ points.class_above class heights.now }
{
    above_number(class, number_of(heights))
}

/// The number that a class and a number of five digits make.
pub fn above_number(class: u32, number: u32) -> u32
    requires class { class ≤ 15 }
    requires below { number < 16 ^ 5 }
    ensures { result ≡ class * 16 ^ 5 + number }
{
    class * 0x10_0000 + number
}

// The number with these digits in base sixteen.
fn number_of(digits: &[u8]) -> u32
    requires { with_digits 0 digits.now < 16 ^ 5 }
    ensures { result ≡ with_digits 0 digits.now }
{
    let mut number = 0;
    for digit in digits {
        number = number * 16 + u32::from(*digit);
    }
    number
}
