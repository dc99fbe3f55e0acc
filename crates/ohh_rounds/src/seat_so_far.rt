//! The state of one seat while the rounds are read.
use card_set::SlotRow;

/// What later actions and the script need to know of a seat.
#[derive(Clone, Copy, Debug, PartialEq, Eq)]
pub struct SeatSoFar {
    pub folded: bool,
    /// The hole cards that were dealt to it, in order.
    pub cards: SlotRow,
    /// The number of the first action that dealt it cards.
    pub first_deal: Option<u32>,
}
