//! The high orders of five cards, for the whole deck and for the short deck, and the high order of
//! up-cards.
#![tactic(auto)]

mod short_deck;
mod up_cards;
mod whole_deck;

pub use short_deck::ShortDeckHigh;
pub use up_cards::up_high;
pub use whole_deck::High;
