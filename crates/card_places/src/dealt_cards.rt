//! The dealt cards of a hand, in the order of dealing, with room for all of them.
ghost use Rattle.std.specs.Prelude.{◌≡◌, ◌≤◌, length};

use crate::dealt_card::DealtCard;

/// The most cards that a legal hand can deal: six seats are dealt five cards each, and draw five in
/// each of three draws. Other games deal fewer: badugi 96, stud 49, Omaha 45, hold'em 25.
pub const MOST_CARDS: u8 = 120;

/// The dealt cards: the first `count` of `rows`.
#[derive(Clone, Copy, Debug, PartialEq, Eq)]
pub struct DealtCards {
    pub count: u8,
    pub rows: [DealtCard; 120],
    pub ghost most: { count ≤ 120 },
    pub ghost full: { length rows ≡ 120 },
}
