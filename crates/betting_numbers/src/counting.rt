//! The ranks of up-cards in the order in which they are compared. How often each occurs is counted
//! once.
ghost use Rattle.std.specs.Prelude.{ℕ, ◌≡◌, ◌+◌, ◌≤◌, ◌++◌, length, slice_index};
ghost use Rattle.card_set.specs.Ranks.{occurring, ranks_of, times};
ghost use Rattle.card_set.specs.Row.{cards_of};
ghost use Rattle.hand_order.specs.Height.{height_with};
ghost use Rattle.betting_numbers.specs.HeightRow.{counted, heights_in};

use crate::heights::Heights;
use card_set::{Card, CardRow};
use hand_order::{Ace, all_heights, height_of};

/// The different ranks of up-cards.
#[derive(Clone, Copy, Debug)]
pub struct Ranked {
    /// How many ranks occur four times.
    pub fours: u8,
    /// How many ranks occur three times.
    pub threes: u8,
    /// How many ranks occur twice.
    pub pairs: u8,
    /// First the ranks that occur more often, then the higher ones.
    pub heights: Heights,
}

/// The different ranks of some cards.
pub fn ranks_in(cards: &CardRow, ace: Ace) -> Ranked
    ensures fours { result.fours
        ≡ length (occurring (height_with ace) (cards_of cards.now) 4) }
    ensures threes { result.threes
        ≡ length (occurring (height_with ace) (cards_of cards.now) 3) }
    ensures pairs { result.pairs
        ≡ length (occurring (height_with ace) (cards_of cards.now) 2) }
    ensures heights { heights_in result.heights
        ≡ ranks_of (height_with ace) (cards_of cards.now) }
{
    let mut counts = [0; 15];
    count_heights(&mut counts, cards.as_slice(), ace);
    let mut heights = Heights::new();
    let fours = push_counted(&mut heights, &counts, 4);
    let threes = push_counted(&mut heights, &counts, 3);
    let pairs = push_counted(&mut heights, &counts, 2);
    push_counted(&mut heights, &counts, 1);
    Ranked {
        fours,
        threes,
        pairs,
        heights,
    }
}

// Adds the cards to the count of each height.
fn count_heights(counts: &mut [u8; 15], cards: &[Card], ace: Ace)
    requires { (h : ℕ) → slice_index counts.old h + length cards.now ≤ 255 }
    ensures { (h : ℕ) → slice_index counts.new h
        ≡ slice_index counts.old h + times (height_with ace) cards.now h }
{
    match cards {
        [] => {}
        [card, rest @ ..] => {
            counts[height_of(card.rank, ace) as usize] += 1;
            count_heights(counts, rest, ace);
        }
    }
}

// Appends the heights that are counted `occurrences` times, and returns how many there are.
fn push_counted(row: &mut Heights, counts: &[u8; 15], occurrences: u8) -> u8
    requires { row.old.len ≤ 42 }
    ensures entries { heights_in row.new ≡ heights_in row.old ++ counted counts.now occurrences }
    ensures longer { row.new.len ≤ row.old.len + 14 }
    ensures count { result ≡ length (counted counts.now occurrences) }
{
    let start = row.len;
    let heights = all_heights();
    for height in heights {
        if counts[height as usize] == occurrences {
            row.push(height);
        }
    }
    row.len - start
}
