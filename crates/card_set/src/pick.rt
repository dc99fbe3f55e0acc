//! Which of the cards that a seat holds, and of those on the board, make its hand.

/// Which choices of cards a holding allows.
#[derive(Clone, Copy, Debug, PartialEq, Eq)]
pub enum Pick {
    /// Any five cards of hole and board together.
    AnyFive,
    /// Exactly two hole cards and three board cards.
    TwoAndThree,
    /// All hole cards.
    AllHeld,
}
