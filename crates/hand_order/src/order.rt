//! What an order of hands is: exactly its hands have a score, and a weaker hand has a lower one.
ghost use Rattle.std.specs.Prelude.{◌≡◌, ℕ, List, Option};
ghost use Rattle.std.specs.Option.{option_map};
ghost use Rattle.card_set.specs.declared.card.Card.{Card};
ghost use Rattle.card_set.specs.CardSet.{count_of, IsListing};
ghost use Rattle.card_set.specs.Row.{cards_of};
ghost use Rattle.hand_order.specs.Choices.{AreHeld, CanChoose, choices};
ghost use Rattle.hand_order.specs.Order.{IsLawful};
ghost use Rattle.hand_order.specs.Points.{greatest};

use card_set::{CardRow, CardSet};

/// How good a hand is in its order: a higher score is a better hand, and equal scores tie. Scores
/// of different orders cannot be compared.
#[derive(Clone, Copy, Debug, PartialEq, Eq, PartialOrd, Ord, Hash)]
pub struct Score {
    pub points: u32,
}

/// An order of hands.
pub trait HandOrder {
    /// How many cards a hand has.
    ghost HELD: { ℕ };

    /// Whether these different cards are a hand of the order.
    ghost is_hand: { List Card → Type 0 };

    /// Whether the first hand is weaker than the second.
    ghost is_weaker: { List Card → List Card → Type 0 };

    /// The points of a hand, if the cards are a hand of the order.
    ghost points: { List Card → Option ℕ };

    /// How many cards a hand has.
    const HELD: u8;

    /// The score of a hand, or `None` if the cards are not a hand of the order.
    fn score(cards: &CardRow) -> Option<Score>
        requires { AreHeld HELD (cards_of cards.now) }
        ensures { option_map (λ s. s.points) result ≡ points (cards_of cards.now) };

    /// The best score among the choices of a hand's number of cards from a set, or `None` if no
    /// choice is a hand. If a hand has five cards, the set has five to seven, otherwise as many as
    /// a hand. The order of the set's cards does not matter.
    fn best_set(cards: &CardSet) -> Option<Score>
        requires { CanChoose HELD (count_of cards.now) }
        ensures { (listing : List Card) → IsListing cards.now listing
            → option_map (λ s. s.points) result ≡ greatest points (choices HELD listing) };

    /// Exactly the hands of the order have points, a weaker hand has fewer, even hands have the
    /// same, and every two hands compare.
    ghost lawful: { IsLawful (AreHeld HELD) is_hand is_weaker points };
}
