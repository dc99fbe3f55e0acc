//! The order of the cards in the deck: by rank from the lowest, and then by suit c, d, h, s.
ghost use Rattle.std.specs.Prelude.{◌≡◌, ◌<◌, slice_get, unwrap_or};
ghost use Rattle.card_set.specs.declared.card.Rank.TheVariants as ranks;
ghost use Rattle.card_set.specs.declared.card.Suit.TheVariants as suits;
ghost use Rattle.card_set.specs.Deck as deck;
ghost use Rattle.card_set.specs.Deck.{all_ranks, all_suits, deck_index, ranks_below, suits_before};

use crate::card::{Card, Rank, Suit};

/// The index of a card in the deck, from 0 to 51.
pub fn index_in_deck(card: Card) -> u8
    ensures index { result ≡ deck_index card }
    ensures within { result < 52 }
{
    4 * rank_index(card.rank) + suit_index(card.suit)
}

/// The number of ranks below this one; the ace is the highest.
pub fn rank_index(rank: Rank) -> u8
    ensures index { result ≡ ranks_below rank }
    ensures within { result < 13 }
{
    match rank {
        Rank::Two => 0,
        Rank::Three => 1,
        Rank::Four => 2,
        Rank::Five => 3,
        Rank::Six => 4,
        Rank::Seven => 5,
        Rank::Eight => 6,
        Rank::Nine => 7,
        Rank::Ten => 8,
        Rank::Jack => 9,
        Rank::Queen => 10,
        Rank::King => 11,
        Rank::Ace => 12,
    }
}

/// The number of suits before this one. It tells suits apart, but does not order hands.
pub fn suit_index(suit: Suit) -> u8
    ensures index { result ≡ suits_before suit }
    ensures within { result < 4 }
{
    match suit {
        Suit::C => 0,
        Suit::D => 1,
        Suit::H => 2,
        Suit::S => 3,
    }
}

/// The card at an index of the deck.
pub fn card_at(index: u8) -> Card
    requires { index < 52 }
    ensures { deck_index result ≡ index }
{
    card_from_index(index)
}

/// The card at an index of the deck; after the end of the deck its rank is the ace.
#[tactic(auto, unfolding(crate::specs::Deck::card_with_index))]
pub fn card_from_index(index: u8) -> Card
    ensures card { result ≡ deck.card_with_index index }
    ensures index { index < 52 → deck_index result ≡ index }
{
    Card {
        rank: rank_at(index / 4),
        suit: suit_at(index % 4),
    }
}

// The rank with this number of ranks below it; after the last, the ace.
fn rank_at(index: u8) -> Rank
    ensures rank { result ≡ unwrap_or (slice_get all_ranks index) ranks.Ace }
    ensures index { index < 13 → ranks_below result ≡ index }
{
    match index {
        0 => Rank::Two,
        1 => Rank::Three,
        2 => Rank::Four,
        3 => Rank::Five,
        4 => Rank::Six,
        5 => Rank::Seven,
        6 => Rank::Eight,
        7 => Rank::Nine,
        8 => Rank::Ten,
        9 => Rank::Jack,
        10 => Rank::Queen,
        11 => Rank::King,
        _ => Rank::Ace,
    }
}

// The suit with this number of suits before it; after the last, spades.
fn suit_at(index: u8) -> Suit
    ensures suit { result ≡ unwrap_or (slice_get all_suits index) suits.S }
    ensures index { index < 4 → suits_before result ≡ index }
{
    match index {
        0 => Suit::C,
        1 => Suit::D,
        2 => Suit::H,
        _ => Suit::S,
    }
}
