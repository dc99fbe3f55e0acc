//! What is wrong with an action.

/// Why a text is not an action of a hand.
#[derive(Clone, Copy, Debug, PartialEq, Eq)]
pub enum ActionFault {
    /// Its words have none of the nine forms, or name no seat of the hand or no cards.
    BadAction,
    /// Its amount has a fraction: digits, a point and digits. Chips are whole.
    AmountNotWhole,
    /// Its amount is above the limit of stated amounts.
    AmountLimit,
}
