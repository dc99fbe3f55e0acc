//! The sizes of the decks.

/// How many cards the whole deck has.
pub const WHOLE_DECK: u8 = 52;

/// The number of cards of the short deck, from the six up.
pub const SHORT_DECK: u8 = 36;
