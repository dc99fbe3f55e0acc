//! A set of cards as 52 bits of one number, the thirteen ranks of a suit next to each other.
ghost use Rattle.std.specs.Prelude.{◌<◌, ◌^◌};

use crate::card::{Card, Suit};
use crate::deck::{card_at, rank_index, suit_index};
use crate::row::CardRow;

/// A set of cards.
#[derive(Clone, Copy, Debug, PartialEq, Eq)]
pub struct CardSet {
    // thirteen bits for each of c, d, h and s, each from the two to the ace
    bits: u64,
    ghost within: { bits < 2 ^ 52 },
}

impl CardSet {
    ghost use Rattle.std.specs.Prelude.{◌≡◌, ◌≢◌, ◌≤◌, ◌==◌, true, false};
    ghost use Rattle.std.specs.Int.{bit_at};
    ghost use Rattle.card_set.specs.declared.card.Card.{Card};
    ghost use Rattle.card_set.specs.declared.card.Rank.{Rank};
    ghost use Rattle.card_set.specs.CardSet.{bit_index, count_of, is_in, is_one_of, listed};
    ghost use Rattle.card_set.specs.Deck.{ranks_below};
    ghost use Rattle.card_set.specs.Row.{cards_of};

    /// The set of the row's cards.
    pub fn of(row: &CardRow) -> Self
        ensures { (card : Card) → is_in result card ≡ is_one_of card (cards_of row.now) }
    {
        let mut set = CardSet::empty();
        for card in row.as_slice() {
            set.insert(*card);
        }
        set
    }

    /// The set without cards.
    pub fn empty() -> Self
        ensures { (card : Card) → is_in result card ≡ false }
    {
        CardSet { bits: 0 }
    }

    /// Puts the card into the set; nothing changes if it is in it already.
    pub fn insert(&mut self, card: Card)
        ensures inside { is_in self.new card ≡ true }
        ensures others { (other : Card) → other ≢ card
            → is_in self.new other ≡ is_in self.old other }
    {
        self.bits |= 1 << Self::bit_of(card);
    }

    /// Takes the card out of the set; nothing changes if it is not in it.
    pub fn remove(&mut self, card: Card)
        ensures outside { is_in self.new card ≡ false }
        ensures others { (other : Card) → other ≢ card
            → is_in self.new other ≡ is_in self.old other }
    {
        self.bits &= !(1 << Self::bit_of(card));
    }

    /// The number of cards in the set.
    pub fn len(&self) -> u8
        ensures { result ≡ count_of self.now }
    {
        self.bits.count_ones() as u8
    }

    /// The ranks of the set's cards of a suit: bit 0 is the two and bit 12 the ace.
    pub fn rank_mask(&self, suit: Suit) -> u16
        ensures ranks { (rank : Rank) → (bit_at result (ranks_below rank) == 1)
            ≡ is_in self.now (record { rank = rank; suit = suit }) }
        ensures within { result < 2 ^ 13 }
    {
        (self.bits >> (13 * suit_index(suit)) & 0x1FFF) as u16
    }

    /// The cards of a set of at most seven, in the order of the deck.
    pub fn to_row(&self) -> CardRow
        requires { count_of self.now ≤ 7 }
        ensures { cards_of result ≡ listed self.now }
    {
        let mut row = CardRow::new();
        for index in 0..52 {
            let card = card_at(index);
            if self.has(card) {
                row.push(card);
            }
        }
        row
    }

    /// Whether the card is in the set.
    pub fn has(&self, card: Card) -> bool
        ensures { result ≡ is_in self.now card }
    {
        self.bits >> Self::bit_of(card) & 1 == 1
    }

    // The bit of a card in a set.
    fn bit_of(card: Card) -> u8
        ensures index { result ≡ bit_index card }
        ensures within { result < 52 }
    {
        13 * suit_index(card.suit) + rank_index(card.rank)
    }
}

impl Default for CardSet {
    ghost use Rattle.std.specs.Prelude.{◌≡◌, false};
    ghost use Rattle.card_set.specs.declared.card.Card.{Card};
    ghost use Rattle.card_set.specs.CardSet.{is_in};

    ghost is_default = { λ set. (card : Card) → is_in set card ≡ false };

    fn default() -> Self {
        CardSet::empty()
    }
}
