//! Finds the best high hand of a set: the best of what its ranks, its straights and its suits make,
//! each looked at alone.
ghost use Rattle.std.specs.Prelude.{◌≡◌, ◌≤◌, ◌<◌, ◌^◌, ℕ, List, Some};
ghost use Rattle.card_set.specs.declared.card.Card.{Card};
ghost use Rattle.card_set.specs.CardSet.{count_of, IsListing};
ghost use Rattle.card_set.specs.Ranks.{high_ace};
ghost use Rattle.card_set.specs.Row.{cards_of};
ghost use Rattle.hand_order.specs.Choices.{AreHeld, choices};
ghost use Rattle.hand_order.specs.Ladder.{ladder_points};
ghost use Rattle.hand_order.specs.Patterns.{OfRanks};
ghost use Rattle.hand_order.specs.Points.{greatest};
ghost use Rattle.hand_order.specs.StraightRanks.{topped};
ghost use Rattle.hand_order.specs.SuitBest.{IsBestOfSuit};
ghost use Rattle.hand_order.specs.Tops.{Shows};

use crate::ladder::{FlushRank, adjust_class, class_of_flush};
use crate::levels::levels_of;
use crate::mask::with_top_digits;
use crate::pattern::best_pattern;
use crate::ranks::above_number;
use crate::straights::{LowStraight, top_straight};
use card_set::{CardRow, CardSet, Suit};

/// The points of five cards in the high order; `low` is the straight that an ace begins, if any,
/// and `flush` whether a flush beats a full house.
pub fn hand_points(cards: &CardRow, low: LowStraight, flush: FlushRank) -> u32
    requires { AreHeld 5 (cards_of cards.now) }
    ensures { result ≡ ladder_points flush low (cards_of cards.now) }
{
    best_high(&CardSet::of(cards), low, flush)
}

/// The points of the best five cards of a set in the high order; `low` is the straight that an ace
/// begins, if any, and `flush` whether a flush beats a full house. Better hands have more points.
/// The choices of five are not listed: four masks of ranks are enough to find the best one.
pub fn best_high(cards: &CardSet, low: LowStraight, flush: FlushRank) -> u32
    requires { 5 ≤ count_of cards.now }
    ensures { (listing : List Card) → IsListing cards.now listing
        → greatest (λ choice. Some (ladder_points flush low choice)) (choices 5 listing)
        ≡ Some result }
{
    let clubs = cards.rank_mask(Suit::C);
    let diamonds = cards.rank_mask(Suit::D);
    let hearts = cards.rank_mask(Suit::H);
    let spades = cards.rank_mask(Suit::S);
    let levels = levels_of(clubs, diamonds, hearts, spades);
    let pattern = best_pattern(levels.all, levels.two, levels.three, levels.four);
    let plain = above_number(adjust_class(flush, pattern.class), pattern.number);
    let straight = straight_points(4, top_straight(levels.all, low));
    plain
        .max(straight)
        .max(suit_points(clubs, low, flush))
        .max(suit_points(diamonds, low, flush))
        .max(suit_points(hearts, low, flush))
        .max(suit_points(spades, low, flush))
}

// The points of the best flush or straight flush among the ranks of one suit, or 0 if there is
// none.
fn suit_points(mask: u16, low: LowStraight, flush: FlushRank) -> u32
    requires { mask < 2 ^ 13 }
    ensures { (T : ℕ → ℕ) → OfRanks high_ace T → Shows mask 1 T → IsBestOfSuit flush low T result }
{
    if mask.count_ones() < 5 {
        return 0;
    }
    let suited = above_number(class_of_flush(flush), with_top_digits(0, mask, 5));
    suited.max(straight_points(8, top_straight(mask, low)))
}

// The points of a straight with this top, or 0 if there is none.
fn straight_points(class: u32, top: u8) -> u32
    requires { class ≤ 8 }
    ensures { result ≡ topped class top }
{
    if top == 0 {
        return 0;
    }
    above_number(class, u32::from(top))
}
