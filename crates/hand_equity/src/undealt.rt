//! A list with room for the cards of a whole deck.
ghost use Rattle.std.specs.Prelude.{◌≡◌, ◌≤◌, ◌<◌, ◌++◌, ◌∷◌, [], length};

use card_set::{Card, Rank, Suit};

/// Cards in the order of the deck: the first `len` of `cards`.
#[derive(Clone, Copy, Debug)]
pub struct Undealt {
    pub len: u8,
    pub cards: [Card; 52],
    pub ghost fits: { len ≤ 52 },
    pub ghost entries: { length cards ≡ 52 },
}

impl Undealt {
    ghost use Rattle.hand_equity.specs.Undealt.{rest_cards};

    /// A list without cards.
    pub fn new() -> Self
        ensures { rest_cards result ≡ [] }
    {
        Undealt {
            len: 0,
            cards: [Card {
                rank: Rank::Two,
                suit: Suit::C,
            }; 52],
        }
    }

    /// Appends a card.
    pub fn push(&mut self, card: Card)
        requires { self.old.len < 52 }
        ensures { rest_cards self.new ≡ rest_cards self.old ++ card ∷ [] }
    {
        self.cards[self.len as usize] = card;
        self.len += 1;
    }
}
